// Request 2.8, "Where is my plan?": from a plan, K and a book, as a program has read them, to the line that says where the plan stands.
#![tactic(auto)]

ghost use Rattle.std.specs.Prelude.{◌≡◌, ◌+◌, ◌≤◌, length, get_or};
ghost use Rattle.model.specs.Page.{plan_line, most_line};
ghost use Rattle.text.specs.Text.{Appended};
ghost use Rattle.page_lines.specs.Put.{Put};
ghost use Rattle.input.specs.Ahead.{end_ahead};
ghost use Rattle.finding.specs.Line.{found_line};
ghost use Rattle.finding.specs.Enough.{most_find};

use find::Standing;
use refusal::Refusal;

// The bytes of the input that count: the length of a plan, the longest plan of such a length, and the K and book of any program.
const MOST_FIND: usize = 16952;

// Where a program puts what it reads. A shorter one would cut off the word by which a book is too long.
pub fn buffer() -> [u8; MOST_FIND]
    ensures { length result ≡ most_find }
{
    [0; MOST_FIND]
}

// The index after the plan, whose length the first byte says, if the input goes so far.
fn plan_end(input: &[u8]) -> Option<usize>
    ensures { result ≡ end_ahead (1 + get_or input.now 0 0) input.now }
{
    let end = usize::from(*input.first()?) + 1;
    (end <= input.len()).then_some(end)
}

// The line of what was found.
fn put_found(out: &mut [u8], found: Result<Standing, Refusal>) -> usize
    requires { most_line ≤ length out.old }
    ensures { Appended out.old 0 (found_line found) out.new result }
{
    match found {
        Err(q) => page_lines::put_refusal(out, q),
        Ok(a) => {
            let at = match a {
                Standing::Rank(_) => text::put_text(out, 0, b"rank "),
                Standing::CostsMore(_) => text::put_text(out, 0, b"more "),
                Standing::TakesHigher(_) => text::put_text(out, 0, b"post "),
            };
            let end = text::put_signed(out, at, a.value());
            text::put_byte(out, end, 10)
        }
    }
}

// The line of any input to the front of `out`; gives its length. A slice that may be too short gets nothing.
pub fn print_place(input: &[u8], out: &mut [u8]) -> usize
    ensures { Put most_line (plan_line input.now) out.old out.new result }
{
    if out.len() < page_lines::MOST_LINE {
        return 0;
    }
    let Some(end) = plan_end(input) else {
        return page_lines::put_refusal(out, Refusal::TooShort);
    };
    let q = input::read(&input[end..]);
    let found = find::find(&q.words[..q.n], q.k, &input[1..end]);
    put_found(out, found)
}
