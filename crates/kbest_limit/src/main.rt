// The program that says which listed plan is the first with at most m marked choices on any day: m, marks, K and a book from standard input, one line to
// standard output.
#![tactic(auto)]

// The read goes on until the buffer is full or the input ends, since one read may give only a part.
fn main() {
    let mut input = limiting::buffer();
    let n = io::read_full(0, &mut input);
    let mut out = page_lines::line_buffer();
    let m = limiting::print_limit(&input[..n], &mut out);
    io::write_all(1, &out[..m]);
}
