// Request 2.10, "At most m hill climbs": from m, marks, K and a book, as a program has read them, to the line that says which listed plan keeps the limit.
#![tactic(auto)]

ghost use Rattle.std.specs.Prelude.{◌≡◌, ◌+◌, ◌≤◌, length};
ghost use Rattle.model.specs.Page.{mark_count, limit_line, most_line};
ghost use Rattle.text.specs.Text.{Appended};
ghost use Rattle.page_lines.specs.Put.{Put};
ghost use Rattle.input.specs.Ahead.{end_ahead};
ghost use Rattle.limiting.specs.Line.{limited_line};
ghost use Rattle.limiting.specs.Enough.{most_limit};

use limit::Kept;
use refusal::Refusal;

// The bytes of the input that count: m, the number of the marks, as many marks as its two bytes can say, and the K and book of any program.
const MOST_LIMIT: usize = 82234;

// Where a program puts what it reads. A shorter one would cut off the word by which a book is too long.
pub fn buffer() -> [u8; MOST_LIMIT]
    ensures { length result ≡ most_limit }
{
    [0; MOST_LIMIT]
}

// The index after the marks, whose number stands in the two bytes after m, if the input goes so far.
fn marks_end(input: &[u8]) -> Option<usize>
    ensures { result ≡ end_ahead (3 + mark_count input.now) input.now }
{
    let [_, low, high, ..] = input else {
        return None;
    };
    let end = usize::from(*low) + 256 * usize::from(*high) + 3;
    (end <= input.len()).then_some(end)
}

// The line of an answer.
fn put_limited(out: &mut [u8], limited: Result<Kept, Refusal>) -> usize
    requires { most_line ≤ length out.old }
    ensures { Appended out.old 0 (limited_line limited) out.new result }
{
    match limited {
        Err(q) => page_lines::put_refusal(out, q),
        Ok(Kept::NoneListed) => text::put_text(out, 0, b"none in the list\n"),
        Ok(Kept::NoneInBook) => text::put_text(out, 0, b"none in the book\n"),
        Ok(Kept::Rank(j)) => {
            let at = text::put_text(out, 0, b"rank ");
            let end = text::put_number(out, at, u64::from(j));
            text::put_byte(out, end, 10)
        }
    }
}

// The line of any input to the front of `out`; gives its length. A slice that may be too short gets nothing.
pub fn print_limit(input: &[u8], out: &mut [u8]) -> usize
    ensures { Put most_line (limit_line input.now) out.old out.new result }
{
    if out.len() < page_lines::MOST_LINE {
        return 0;
    }
    let Some(end) = marks_end(input) else {
        return page_lines::put_refusal(out, Refusal::TooShort);
    };
    let m = usize::from(input[0]);
    let q = input::read(&input[end..]);
    let limited = limit::limit(&q.words[..q.n], q.k, &input[3..end], m);
    put_limited(out, limited)
}
