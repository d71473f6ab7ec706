// Filing: from K and a book, as a program has read them, to the bytes of the record.
#![tactic(auto)]

ghost use Rattle.std.specs.Prelude.{◌≡◌, length};
ghost use Rattle.model.specs.Page.{filed, most_record};
ghost use Rattle.page_lines.specs.Put.{Put};

// No record is longer.
const MOST_RECORD: usize = 21308;

// Where a program puts its record.
pub fn buffer() -> [u8; MOST_RECORD]
    ensures { length result ≡ most_record }
{
    [0; MOST_RECORD]
}

// The record of any input, or the line of its refusal, to the front of `out`; gives its length. A slice that may be too short gets nothing.
pub fn file_record(input: &[u8], out: &mut [u8]) -> usize
    ensures { Put most_record (filed input.now) out.old out.new result }
{
    if out.len() < MOST_RECORD {
        return 0;
    }
    let q = input::read(input);
    match write::write(&q.words[..q.n], q.k, out) {
        Ok(n) => n,
        Err(no) => page_lines::put_refusal(out, no),
    }
}
