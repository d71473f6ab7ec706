// The program that prints the page of a filed record: a record from standard input, the page to standard output.
#![tactic(auto)]

// The read goes on until the buffer is full or the input ends, since one read may give only a part.
fn main() {
    let mut filed = filed_page::buffer();
    let n = io::read_full(0, &mut filed);
    let mut out = page::buffer();
    let m = filed_page::print_record(&filed[..n], &mut out);
    io::write_all(1, &out[..m]);
}
