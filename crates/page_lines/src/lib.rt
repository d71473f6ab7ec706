// The lines of the printed page: a refusal, the title, and a line for each policy of a list; and room for the line of one answer.
#![tactic(auto)]

ghost use Rattle.std.specs.Prelude.{◌≡◌, ◌+◌, ◌*◌, ◌≤◌, length};
ghost use Rattle.model.specs.Page.{refused_line, most_line};
ghost use Rattle.record.specs.Listed.{Held};
ghost use Rattle.text.specs.Text.{Appended};
ghost use Rattle.page_lines.specs.Lines.{title_text, array_lines};
ghost use Rattle.refusal.specs.Refusal.{number_of};

use record::Listing;
use refusal::Refusal;

// No refusal and no line of one answer is longer.
pub const MOST_LINE: usize = 40;

// Where a program puts the line of one answer.
pub fn line_buffer() -> [u8; MOST_LINE]
    ensures { length result ≡ most_line }
{
    [0; MOST_LINE]
}

// The line of a refusal.
pub fn put_refusal(out: &mut [u8], q: Refusal) -> usize
    requires { most_line ≤ length out.old }
    ensures { Appended out.old 0 (refused_line (number_of q)) out.new result }
{
    put_refused(out, u32::from(q))
}

// The same by its number, which may be any.
pub fn put_refused(out: &mut [u8], no: u32) -> usize
    requires { most_line ≤ length out.old }
    ensures { Appended out.old 0 (refused_line no) out.new result }
{
    let a = text::put_text(out, 0, b"refused ");
    let b = text::put_number(out, a, u64::from(no));
    text::put_byte(out, b, 10)
}

// k, K and D^H.
pub fn put_title(out: &mut [u8], n: u64, k: u64, scale: u64) -> usize
    requires { 80 ≤ length out.old }
    ensures { Appended out.old 0 (title_text n k scale) out.new result × (result ≤ 80) }
{
    let a = text::put_number(out, 0, n);
    let b = text::put_text(out, a, b" of ");
    let c = text::put_number(out, b, k);
    let d = text::put_text(out, c, b", scale ");
    let e = text::put_number(out, d, scale);
    text::put_byte(out, e, 10)
}

// A line for each policy of a list. A line has at most 1,387 bytes.
pub fn put_lines(out: &mut [u8], at: usize, l: Listing) -> usize
    requires { Held l × (l.s ≤ 64) × (at + 1387 * l.n ≤ length out.old) }
    ensures { Appended out.old at (array_lines l l.n) out.new result }
{
    let mut p = at;
    for j in 0..l.n {
        let from = j * l.s;
        let to = from + l.s;
        p = text::put_line(out, p, j as u64 + 1, l.costs[j], &l.plans[from..to]);
    }
    p
}
