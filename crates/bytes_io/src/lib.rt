// Numbers in byte slices, low byte first: read, written and compared.
#![tactic(auto)]

ghost use Rattle.std.specs.Prelude.{◌≡◌, ◌+◌, ◌*◌, ◌<◌, ◌≤◌, length, take, drop};
ghost use Rattle.model.specs.Lists.{for_each, same};
ghost use Rattle.model.specs.Bytes.{bytes, signed_bytes, from_bytes, signed, words_of};
ghost use Rattle.model.specs.Calls.{over};
ghost use Rattle.bytes_io.specs.Slices.{written};

// ---- reading

// The four bytes from index `at` on as an unsigned number.
pub fn read4(r: &[u8], at: usize) -> u64
    requires { at + 4 ≤ length r.now }
    ensures { (result ≡ from_bytes (take 4 (drop at r.now))) × (result < 4294967296) }
{
    u64::from(u32::from_le_bytes(r[at..at + 4].try_into().unwrap()))
}

// The four bytes from index `at` on as a signed word.
pub fn read_word(r: &[u8], at: usize) -> i32
    requires { at + 4 ≤ length r.now }
    ensures { result ≡ signed (from_bytes (take 4 (drop at r.now))) }
{
    i32::from_le_bytes(r[at..at + 4].try_into().unwrap())
}

// The n words from index `at` on, to the front of `out`.
pub fn read_words(r: &[u8], at: usize, n: usize, out: &mut [i32])
    requires { (at + 4 * n ≤ length r.now) × (n ≤ length out.old) }
    ensures { (out.new ≡ over (words_of n (drop at r.now)) out.old) × (length out.new ≡ length out.old) }
{
    for i in 0..n {
        out[i] = read_word(r, at + 4 * i);
    }
}

// ---- writing, from index `at` on

// An unsigned number of four bytes.
pub fn write4(out: &mut [u8], at: usize, x: usize)
    requires { (at + 4 ≤ length out.old) × (x < 4294967296) }
    ensures { out.new ≡ written out.old at 4 (bytes 4 x) }
{
    out[at..at + 4].copy_from_slice(&(x as u32).to_le_bytes());
}

// A signed number of eight bytes.
fn write_cost(out: &mut [u8], at: usize, x: i64)
    requires { at + 8 ≤ length out.old }
    ensures { out.new ≡ written out.old at 8 (signed_bytes 8 x) }
{
    out[at..at + 8].copy_from_slice(&x.to_le_bytes());
}

// A signed number of four bytes.
fn write_word(out: &mut [u8], at: usize, x: i32)
    requires { at + 4 ≤ length out.old }
    ensures { out.new ≡ written out.old at 4 (signed_bytes 4 x) }
{
    out[at..at + 4].copy_from_slice(&x.to_le_bytes());
}

// Every word of ws.
pub fn write_words(out: &mut [u8], at: usize, ws: &[i32])
    requires { at + 4 * length ws.now ≤ length out.old }
    ensures { out.new ≡ written out.old at (4 * length ws.now) (for_each (signed_bytes 4) ws.now) }
{
    for (i, w) in ws.iter().enumerate() {
        write_word(out, at + 4 * i, *w);
    }
}

// The first k costs.
pub fn write_costs(out: &mut [u8], at: usize, costs: &[i64], k: usize)
    requires { (at + 8 * k ≤ length out.old) × (k ≤ length costs.now) }
    ensures { out.new ≡ written out.old at (8 * k) (for_each (signed_bytes 8) (take k costs.now)) }
{
    for (i, x) in costs[..k].iter().enumerate() {
        write_cost(out, at + 8 * i, *x);
    }
}

// The first n bytes of src.
pub fn write_bytes(out: &mut [u8], at: usize, src: &[u8], n: usize)
    requires { (at + n ≤ length out.old) × (n ≤ length src.now) }
    ensures { out.new ≡ written out.old at n (take n src.now) }
{
    out[at..at + n].copy_from_slice(&src[..n]);
}

// ---- comparing

// Are the bytes from index `at` on the first n of src?
pub fn same_bytes(r: &[u8], at: usize, src: &[u8], n: usize) -> bool
    requires { (at + n ≤ length r.now) × (n ≤ length src.now) }
    ensures { result ≡ same (take n (drop at r.now)) (take n src.now) }
{
    r[at..at + n] == src[..n]
}
