// Text in a byte slice: numbers in base ten, and one line of the printed page. Each function writes from index `at` on and gives the index after its
// text, which is at most as long as the room that it asks for.
#![tactic(auto)]

ghost use Rattle.std.specs.Prelude.{◌≡◌, [], ◌∷◌, ◌+◌, ◌*◌, ◌<◌, ◌≤◌, length};
ghost use Rattle.model.specs.Lists.{for_each};
ghost use Rattle.model.specs.Page.{decimal, signed_decimal, choice_text};
ghost use Rattle.text.specs.Text.{Appended, line_text};

pub fn put_byte(out: &mut [u8], at: usize, x: u8) -> usize
    requires { at < length out.old }
    ensures { Appended out.old at (x ∷ []) out.new result }
{
    out[at] = x;
    at + 1
}

pub fn put_text(out: &mut [u8], at: usize, text: &[u8]) -> usize
    requires { at + length text.now ≤ length out.old }
    ensures { Appended out.old at text.now out.new result }
{
    let end = at + text.len();
    out[at..end].copy_from_slice(text);
    end
}

// A number has at most 20 digits.
pub fn put_number(out: &mut [u8], at: usize, x: u64) -> usize
    requires { at + 20 ≤ length out.old }
    ensures { Appended out.old at (decimal x) out.new result × (result ≤ at + 20) }
{
    let mut digits = [0u8; 20];
    let n = io::decimal(x, &mut digits);
    put_text(out, at, &digits[..n])
}

pub fn put_signed(out: &mut [u8], at: usize, x: i64) -> usize
    requires { at + 21 ≤ length out.old }
    ensures { Appended out.old at (signed_decimal x) out.new result × (result ≤ at + 21) }
{
    if x < 0 {
        let next = put_byte(out, at, b'-');
        return put_number(out, next, x.unsigned_abs());
    }
    put_number(out, at, x.unsigned_abs())
}

// A space, then the choice, or `-` where the state is not reached.
fn put_choice(out: &mut [u8], at: usize, x: u8) -> usize
    requires { at + 21 ≤ length out.old }
    ensures { Appended out.old at (choice_text x) out.new result × (result ≤ at + 21) }
{
    let next = put_byte(out, at, b' ');
    if x == 255 {
        return put_byte(out, next, b'-');
    }
    put_number(out, next, x as u64)
}

fn put_choices(out: &mut [u8], at: usize, plan: &[u8]) -> usize
    requires { at + 21 * length plan.now ≤ length out.old }
    ensures { Appended out.old at (for_each choice_text plan.now) out.new result × (result ≤ at + 21 * length plan.now) }
{
    let mut p = at;
    for x in plan {
        p = put_choice(out, p, *x);
    }
    p
}

// The rank, the cost and each state's choice, with a line feed after them.
pub fn put_line(out: &mut [u8], at: usize, rank: u64, cost: i64, plan: &[u8]) -> usize
    requires { at + 43 + 21 * length plan.now ≤ length out.old }
    ensures { Appended out.old at (line_text rank cost plan.now) out.new result × (result ≤ at + 43 + 21 * length plan.now) }
{
    let a = put_number(out, at, rank);
    let b = put_byte(out, a, b' ');
    let c = put_signed(out, b, cost);
    let d = put_choices(out, c, plan);
    put_byte(out, d, b'\n')
}
