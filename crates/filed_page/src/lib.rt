// The page of a filed record: from the bytes that a program has read to those that it writes.
#![tactic(auto)]

ghost use Rattle.std.specs.Prelude.{◌≡◌, suc, length};
ghost use Rattle.model.specs.Page.{record_page, most_page, most_record};
ghost use Rattle.page_lines.specs.Put.{Put};

// One byte more than the longest record has.
const MOST_READ: usize = 21309;

// The words of the longest book.
const MOST_BOOK: usize = 4172;

// Where a program puts what it reads. A shorter one would cut off the byte by which a record is too long.
pub fn buffer() -> [u8; MOST_READ]
    ensures { length result ≡ suc most_record }
{
    [0; MOST_READ]
}

// The page of any record, or the line of its refusal, to the front of `out`; gives its length. A slice that may be too short gets nothing.
pub fn print_record(r: &[u8], out: &mut [u8]) -> usize
    ensures { Put most_page (record_page r.now) out.old out.new result }
{
    if let Err(q) = accept::accept(r) {
        return page::put_page(u32::from(q), &[], 0, out);
    }
    let mut words = [0; MOST_BOOK];
    record::read_book(r, &mut words);
    let book = &words[..record::carried_length(r)];
    let k = record::carried_k(r);
    page::put_page(0, book, k, out)
}
