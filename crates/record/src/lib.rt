// The filed record: its bytes written, and its questions 19 to 21.
#![tactic(auto)]

ghost use Rattle.std.specs.Prelude.{◌≡◌, true, ◌+◌, ◌*◌, ◌<◌, ◌≤◌, length, take, drop};
ghost use Rattle.model.specs.Lists.{same};
ghost use Rattle.model.specs.Model.{state_count};
ghost use Rattle.model.specs.Questions.{first_no};
ghost use Rattle.model.specs.Record.{record_bytes, carried_length, carried_k, carried_count, carried_book};
ghost use Rattle.model.specs.Record.{head_questions, tail_questions};
ghost use Rattle.model.specs.Calls.{over};
ghost use Rattle.asked.specs.Asked.{Asked};
ghost use Rattle.bytes_io.specs.Slices.{written};
ghost use Rattle.record.specs.Listed.{cost_bytes, Listed};
ghost use Rattle.record.specs.Lengths.{head_bytes};
ghost use Rattle.record.specs.Passed.{RecordHead, head_fits, sizes_fit, list_fits};
ghost use Rattle.refusal.specs.Refusal.{number_in};

use refusal::Refusal;

// The ranked list of a book by value: the first n policies, each of s bytes, and their costs.
#[derive(Drop)]
pub struct Listing {
    pub n: usize,
    pub s: usize,
    pub costs: [i64; 64],
    pub plans: [u8; 4096],
}

// ---- where the book and the bytes of costs are put

pub fn no_book() -> [i32; 4172]
    ensures { length result ≡ 4172 }
{
    [0; 4172]
}

// ---- writing

// The sizes and the book, to the front of `out`.
fn put_head(b: &[i32], k: usize, n: usize, out: &mut [u8])
    requires { (12 + 4 * length b.now ≤ length out.old) × (length b.now < 4294967296) × (k < 4294967296) × (n < 4294967296) }
    ensures { out.new ≡ written out.old 0 (12 + 4 * length b.now) (head_bytes b.now k n) }
{
    bytes_io::write4(out, 0, b.len());
    bytes_io::write4(out, 4, k);
    bytes_io::write4(out, 8, n);
    bytes_io::write_words(out, 12, b);
}

// The record of book b and count k, whose list is the one lent, to the front of `out`.
pub fn put_record(b: &[i32], k: usize, list: &Listing, out: &mut [u8])
    requires { Asked b.now k × Listed b.now k list.now × (length (record_bytes b.now k) ≤ length out.old) }
    ensures { out.new ≡ over (record_bytes b.now k) out.old }
{
    let n = list.n;
    put_head(b, k, n, out);
    let at = 12 + 4 * b.len();
    bytes_io::write_costs(out, at, &list.costs, n);
    bytes_io::write_bytes(out, at + 8 * n, &list.plans, n * list.s);
}

// ---- what a record carries

// W, the length of the book.
#[tactic(auto, unfolding(model::specs::Record::carried_length))]
pub fn carried_length(r: &[u8]) -> usize
    requires { 12 ≤ length r.now }
    ensures { (result ≡ carried_length r.now) × (result < 4294967296) }
{
    bytes_io::read4(r, 0) as usize
}

// K, the count that was asked for.
#[tactic(auto, unfolding(model::specs::Record::carried_k))]
pub fn carried_k(r: &[u8]) -> usize
    requires { 12 ≤ length r.now }
    ensures { (result ≡ carried_k r.now) × (result < 4294967296) }
{
    bytes_io::read4(r, 4) as usize
}

// k, how many policies are listed.
#[tactic(auto, unfolding(model::specs::Record::carried_count))]
pub fn carried_count(r: &[u8]) -> usize
    requires { 12 ≤ length r.now }
    ensures { (result ≡ carried_count r.now) × (result < 4294967296) }
{
    bytes_io::read4(r, 8) as usize
}

// The carried book, to the front of `out`.
pub fn read_book(r: &[u8], out: &mut [i32])
    requires { (first_no head_questions r.now ≡ 0) × (4172 ≤ length out.old) }
    ensures { (take (carried_length r.now) out.new ≡ carried_book r.now) × (length out.new ≡ length out.old) }
{
    let w = carried_length(r);
    bytes_io::read_words(r, 12, w, out);
}

// ---- accepting

// 19: are there 12 bytes, is W at most 4,172, and do 4 × W bytes follow?
#[tactic(auto, using(crate::specs::Passed::start_is))]
fn head_fits(r: &[u8]) -> bool
    ensures { result ≡ head_fits r.now }
{
    12 <= r.len() && carried_length(r) <= 4172 && 12 + 4 * carried_length(r) <= r.len()
}

// 19.
pub fn head_number(r: &[u8]) -> Result<(), Refusal>
    ensures { number_in result ≡ first_no head_questions r.now }
{
    if !head_fits(r) {
        return Err(Refusal::RecordHead);
    }
    Ok(())
}

// 20: is k from 1 to K and the length exact?
#[tactic(auto, using(crate::specs::Passed::start_is))]
fn sizes_fit(r: &[u8], s: usize) -> bool
    requires { RecordHead r.now × (s ≡ state_count (carried_book r.now)) × (s ≤ 64) × (carried_k r.now ≤ 64) }
    ensures { result ≡ sizes_fit r.now }
{
    let k = carried_count(r);
    1 <= k && k <= carried_k(r) && r.len() == 12 + 4 * carried_length(r) + 8 * k + k * s
}

// Are the bytes from index `at` on those of the first n costs?
fn same_costs(r: &[u8], at: usize, costs: &[i64], n: usize) -> bool
    requires { (at + 8 * n ≤ length r.now) × (n ≤ length costs.now) × (n ≤ 64) }
    ensures { result ≡ same (take (8 * n) (drop at r.now)) (cost_bytes n costs.now) }
{
    let mut bytes = [0u8; 512];
    bytes_io::write_costs(&mut bytes, 0, costs, n);
    bytes_io::same_bytes(r, at, &bytes, 8 * n)
}

// 21: are costs, plans and k those of the list of the carried book and count?
fn list_fits(r: &[u8], list: &Listing) -> bool
    requires { RecordHead r.now × (sizes_fit r.now ≡ true) × Listed (carried_book r.now) (carried_k r.now) list.now }
    ensures { result ≡ list_fits r.now }
{
    let n = list.n;
    let at = 12 + 4 * carried_length(r);
    carried_count(r) == n
        && same_costs(r, at, &list.costs, n)
        && bytes_io::same_bytes(r, at + 8 * n, &list.plans, n * list.s)
}

// 20, then 21.
pub fn tail_number(r: &[u8], list: &Listing) -> Result<(), Refusal>
    requires { (first_no head_questions r.now ≡ 0) × Asked (carried_book r.now) (carried_k r.now) × Listed (carried_book r.now) (carried_k r.now) list.now }
    ensures { number_in result ≡ first_no tail_questions r.now }
{
    if !sizes_fit(r, list.s) {
        return Err(Refusal::RecordLength);
    }
    if !list_fits(r, list) {
        return Err(Refusal::RecordList);
    }
    Ok(())
}
