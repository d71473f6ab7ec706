// K and a book from the bytes that a program has read.
#![tactic(auto)]

ghost use Rattle.std.specs.Prelude.{◌≡◌, ◌≤◌, length};
ghost use Rattle.model.specs.Page.{most_input};
ghost use Rattle.input.specs.Read.{Read};

// The bytes of the input that count: K, the longest book and one word more.
const MOST_INPUT: usize = 16696;

// The words of the longest book and one more.
const MOST_WORDS: usize = 4173;

// K, and the book, which is the first n of the words: there is no heap, so its length stands beside an array. Of what is no count and whole words after it n
// is 0: question 1 refuses a book without words.
#[derive(Drop)]
pub struct Input {
    pub k: usize,
    pub n: usize,
    pub words: [i32; MOST_WORDS],
}

// Where a program puts what it reads. A shorter one would cut off the word by which a book is too long.
pub fn buffer() -> [u8; MOST_INPUT]
    ensures { length result ≡ most_input }
{
    [0; MOST_INPUT]
}

// Of bytes of which every one counts.
fn read_counted(r: &[u8]) -> Input
    requires { length r.now ≤ most_input }
    ensures { Read r.now result }
{
    let mut words = [0; MOST_WORDS];
    if r.len() < 4 || r.len() % 4 != 0 {
        return Input { k: 0, n: 0, words };
    }
    let k = bytes_io::read4(r, 0) as usize;
    let n = r.len() / 4 - 1;
    bytes_io::read_words(r, 4, n, &mut words);
    Input { k, n, words }
}

// Of any bytes.
pub fn read(r: &[u8]) -> Input
    ensures { Read r.now result }
{
    read_counted(&r[..r.len().min(MOST_INPUT)])
}
