// The converting program: a planners' table from standard input, its book to standard output.
#![tactic(auto)]

// The read goes on until the buffer is full or the input ends, since one read may give only a part.
fn main() {
    let mut input = table_input::buffer();
    let n = io::read_full(0, &mut input);
    let mut out = table_input::room();
    let m = table_input::convert_bytes(&input[..n], &mut out);
    io::write_all(1, &out[..m]);
}
