// The printed page: from the bytes that a program has read to those that it writes.
#![tactic(auto)]

ghost use Rattle.std.specs.Prelude.{◌≡◌, ◌≤◌, length};
ghost use Rattle.model.specs.Page.{or_refused, list_page, page, most_page};
ghost use Rattle.asked.specs.Asked.{Asked};
ghost use Rattle.text.specs.Text.{Appended};
ghost use Rattle.page_lines.specs.Put.{Put};

// No page is longer.
const MOST_PAGE: usize = 90112;

// Where a program puts its page.
pub fn buffer() -> [u8; MOST_PAGE]
    ensures { length result ≡ most_page }
{
    [0; MOST_PAGE]
}

// The list of a book and a count that pass the questions 1 to 14 and 28.
fn put_list(b: &[i32], k: usize, out: &mut [u8]) -> usize
    requires { Asked b.now k × (most_page ≤ length out.old) }
    ensures { Appended out.old 0 (list_page b.now k) out.new result }
{
    let z = book::read_sizes(b);
    let l = listing::list(b, k);
    let at = page_lines::put_title(out, l.n as u64, k as u64, power::power(z.d, z.h));
    page_lines::put_lines(out, at, l)
}

// The line of a refusal, by its number, which may be any, or for 0 the list: to the front of `out`; gives its length. A slice that may be too short gets nothing.
pub fn put_page(no: u32, b: &[i32], k: usize, out: &mut [u8]) -> usize
    requires { no ≡ 0 → Asked b.now k }
    ensures { Put most_page (or_refused no (list_page b.now k)) out.old out.new result }
{
    if out.len() < MOST_PAGE {
        return 0;
    }
    if no != 0 {
        return page_lines::put_refused(out, no);
    }
    put_list(b, k, out)
}

// The page of any input.
pub fn print_page(input: &[u8], out: &mut [u8]) -> usize
    ensures { Put most_page (page input.now) out.old out.new result }
{
    let q = input::read(input);
    let book = &q.words[..q.n];
    let asked = asked::asked_number(book, q.k);
    put_page(refusal::number(&asked), book, q.k, out)
}
