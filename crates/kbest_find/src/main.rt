// The program that says where a plan stands: a plan, K and a book from standard input, one line to standard output.
#![tactic(auto)]

// The read goes on until the buffer is full or the input ends, since one read may give only a part.
fn main() {
    let mut input = finding::buffer();
    let n = io::read_full(0, &mut input);
    let mut out = page_lines::line_buffer();
    let m = finding::print_place(&input[..n], &mut out);
    io::write_all(1, &out[..m]);
}
