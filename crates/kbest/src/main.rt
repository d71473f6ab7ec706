// The printing program: K and a book from standard input, the page to standard output.
#![tactic(auto)]

// The read goes on until the buffer is full or the input ends, since one read may give only a part.
fn main() {
    let mut input = input::buffer();
    let n = io::read_full(0, &mut input);
    let mut out = page::buffer();
    let m = page::print_page(&input[..n], &mut out);
    io::write_all(1, &out[..m]);
}
