// From a table's bytes, as a program has read them, to the bytes of its book.
#![tactic(auto)]

ghost use Rattle.std.specs.Prelude.{◌≡◌, ◌≤◌, length};
ghost use Rattle.page_lines.specs.Put.{Put};
ghost use Rattle.table_input.specs.Bytes.{most_table, most_book, book_bytes};

use refusal::Refusal;

// The bytes of the input that count: the longest table and one word more.
const MOST_TABLE: usize = 16472;

// No book that passes its questions is longer.
const MOST_BOOK: usize = 16688;

// Where a program puts what it reads, and the book: functions, since their lengths are promised to be those of specs/.
pub fn buffer() -> [u8; MOST_TABLE]
    ensures { length result ≡ most_table }
{
    [0; MOST_TABLE]
}

pub fn room() -> [u8; MOST_BOOK]
    ensures { length result ≡ most_book }
{
    [0; MOST_BOOK]
}

// Of bytes of which every one counts.
fn convert_counted(r: &[u8], out: &mut [u8]) -> usize
    requires { (length r.now ≤ most_table) × (most_book ≤ length out.old) }
    ensures { Put most_book (book_bytes r.now) out.old out.new result }
{
    if r.len() % 4 != 0 {
        return page_lines::put_refusal(out, Refusal::TableSizes);
    }
    let n = r.len() / 4;
    let mut words = [0; 4118];
    bytes_io::read_words(r, 0, n, &mut words);
    // room for the book of any table: one that is too large is then refused by its own questions
    let mut book = [0; 32775];
    match convert::convert(&words[..n], &mut book) {
        Ok(length) => {
            bytes_io::write_words(out, 0, &book[..length]);
            4 * length
        }
        Err(q) => page_lines::put_refusal(out, q),
    }
}

// The bytes of the book of any input, or the line of its refusal, to the front of `out`; gives their length. A slice that may be too short gets nothing,
// and 0 is given: so `Put` has it.
pub fn convert_bytes(r: &[u8], out: &mut [u8]) -> usize
    ensures { Put most_book (book_bytes r.now) out.old out.new result }
{
    if out.len() < MOST_BOOK {
        return 0;
    }
    convert_counted(&r[..r.len().min(MOST_TABLE)], out)
}
