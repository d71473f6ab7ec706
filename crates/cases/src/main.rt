// Puts test cases from standard input to the calls, and prints what each call gives. tests/cases.py makes the input, and the output that is expected.
//
// A case is a row of commands over three places, new for each case: the words of a book, none at first, 40,960 bytes, each 77, and a fresh desk. A
// command is six bytes: its kind (a letter), z, and x and y of two bytes each, low byte first. Its part is the bytes from x up to y, and k is the number
// of the first eight bytes. Nothing that is read can make a range wrong: every end is cut to the place that it is used on.
//
//  e  ends the case                         l  gives the least cost
//  i  reads the part from the input         v  values the part as a policy
//  t  reads it, and prints it as text       d  looks up k to the power of z
//  m  makes the part the book               a  accepts the part
//  c  checks the book                       s  shows policy k of the part
//  r  ranks k policies into z costs         b  shows it through a browser
//     and the part                          p  prints the page of the part
//  w  writes their record into the part     x  converts the book, as a planners'
//  q  finds the part, as a policy, in the      table, into the words of the part
//     list of k policies                    u  seeks the first of k policies that keeps
//  g  ranks k policies of a small book,        the limit of the part: m in eight bytes,
//     as r                                     then the marks
//
// At the desk the part has numbers of eight bytes, 0 where they are missing: the rider and the rank.
//
//  o  opens the desk with the part          y  commits for the rider
//  h  asks for the rank for the rider       n  cancels for the rider
//  f  fills the desk: bytes of k, of the ranks held and of the ranks committed; of no bytes it cancels for rider 0
//
// A call prints its letter, then its number and two figures, 0 where it has none, and all that the lent slices hold after it (for w and x the z costs too);
// s and b print the bytes that they show. The figures of a call at the desk are the ranks that the rider holds and has committed to; k and all ranks
// follow.
#![tactic(auto)]

ghost use Rattle.std.specs.Prelude.{◌*◌, ◌<◌, ◌≤◌, length};

use refusal::Refusal;
use reservation::Desk;

#[derive(Clone, Copy)]
struct Head {
    kind: u8,
    z: u8,
    k: usize,
    x: usize,
    y: usize,
}

// ---- printing

// No call gives a number that is too large for its sign.
fn figure(x: usize) -> i64 {
    i64::try_from(x).unwrap_or(i64::MAX)
}

fn print_signed(x: i64) {
    if x < 0 {
        io::write_all(1, b" -");
    } else {
        io::write_all(1, b" ");
    }
    io::print_decimal(1, x.unsigned_abs());
}

fn print_row(row: &[i64]) {
    for x in row {
        print_signed(*x);
    }
    io::write_all(1, b"\n");
}

fn print_answer(kind: u8, answer: [i64; 3]) {
    io::write_all(1, &[kind]);
    print_row(&answer);
}

// The number of a call, then its figures.
fn print_call(kind: u8, given: Result<[i64; 2], Refusal>) {
    let [x, y] = given.unwrap_or([0, 0]);
    print_answer(kind, [i64::from(refusal::number(&given)), x, y]);
}

// Byte i of a slice, printed if it is among the first 32, and taken into a digest: a remainder by a prime below 2^55, so that no product wraps.
fn print_byte(d: u64, i: usize, x: u8) -> u64
    requires { d < 36028797018963913 }
    ensures { result < 36028797018963913 }
{
    if i < 32 {
        print_signed(i64::from(x));
    }
    (d * 257 + u64::from(x) + 1) % 36028797018963913
}

fn print_each(bytes: &[u8]) -> u64
    ensures { result < 36028797018963913 }
{
    let mut d: u64 = 0;
    for (i, x) in bytes.iter().enumerate() {
        d = print_byte(d, i, *x);
    }
    d
}

// The length and the digest follow where not every byte is printed.
fn print_bytes(bytes: &[u8]) {
    let d = print_each(bytes);
    if 32 < bytes.len() {
        io::write_all(1, b" ..");
        print_row(&[figure(bytes.len()), d as i64]);
    } else {
        io::write_all(1, b"\n");
    }
}

// ---- the calls

// The number of the eight bytes from a place on, 0 where they are missing.
fn number_at(bytes: &[u8], at: usize) -> usize
    requires { at < 4096 }
{
    if bytes.len() < at + 8 {
        return 0;
    }
    usize::from_le_bytes(bytes[at..at + 8].try_into().unwrap())
}

// The figures of a call that writes nothing.
fn ask(h: Head, b: &[i32], part: &[u8]) -> Result<[i64; 2], Refusal> {
    match h.kind {
        b'c' => check_book::check(b).map(|_| [0, 0]),
        b'l' => least::least(b).map(|cost| [cost, 0]),
        b'v' => value::value(b, part).map(|cost| [cost, 0]),
        b'a' => accept::accept(part).map(|a| [figure(a.s), figure(a.k)]),
        b'q' => find::find(b, h.k, part).map(|a| [i64::from(a.number()), a.value()]),
        b'u' => {
            let marks = &part[part.len().min(8)..];
            limit::limit(b, h.k, marks, number_at(part, 0)).map(|a| [
                i64::from(a.number()),
                figure(a.rank()),
            ])
        }
        _ => Ok([figure(power::power(h.k, h.z as usize) as usize), 0]),
    }
}

// Reads the words of the part, as many as there is room for; gives how many.
fn words_of(part: &[u8], words: &mut [i32]) -> usize
    ensures { (4 * result ≤ length part.now) × (result ≤ length words.new) }
{
    let n = words.len().min(part.len() / 4);
    bytes_io::read_words(part, 0, n, words);
    n
}

// Whole words are lent and put back, 5,400 at most; bytes after them stay.
fn convert_part(b: &[i32], out: &mut [u8]) -> Result<usize, Refusal> {
    let mut words = [0i32; 5400];
    let n = words_of(out, &mut words);
    let lent = &mut words[..n];
    let length = convert::convert(b, lent);
    bytes_io::write_words(out, 0, lent);
    length
}

// The length or the count of a call that writes to the lent slices.
fn lend(h: Head, b: &[i32], costs: &mut [i64], out: &mut [u8]) -> Result<usize, Refusal> {
    match h.kind {
        b'r' => rank::rank(b, h.k, costs, out),
        b'g' => rank_small::rank_small(b, h.k, costs, out),
        b'x' => convert_part(b, out),
        _ => write::write(b, h.k, out),
    }
}

fn run_lent(h: Head, b: &[i32], out: &mut [u8]) {
    let mut places = [77i64; 80];
    let n = places.len().min(h.z as usize);
    let costs = &mut places[..n];
    let given = lend(h, b, costs, out);
    print_call(h.kind, given.map(|n| [figure(n), 0]));
    print_row(costs);
    print_bytes(out);
}

// The page as the printing program would print it.
fn print_page(input: &[u8]) {
    let mut out = [77u8; 90112];
    let end = page::print_page(input, &mut out).min(out.len());
    io::write_all(1, b"\n");
    io::write_all(1, &out[..end]);
}

fn print_part(h: Head, part: &[u8]) {
    io::write_all(1, &[h.kind]);
    match h.kind {
        b's' => print_bytes(accept::show(part, h.k)),
        b'b' => print_bytes(browse::browse(part, h.k)),
        _ => print_page(part),
    }
}

// ---- the desk

fn ranks_at(part: &[u8], from: usize) -> [u8; 16]
    requires { from < 4096 }
{
    let mut ranks = [0u8; 16];
    if from + 16 <= part.len() {
        ranks.copy_from_slice(&part[from..from + 16]);
    }
    ranks
}

fn filled(part: &[u8]) -> Desk
    requires { 0 < length part.now }
{
    Desk {
        k: part[0],
        held: ranks_at(part, 1),
        committed: ranks_at(part, 17),
    }
}

// Gives the desk afterwards.
fn serve(h: Head, desk: Desk, part: &[u8]) -> Desk {
    let rider = number_at(part, 0);
    let a = match h.kind {
        b'o' => desk::opened(desk, part),
        b'h' => desk.asking(rider, number_at(part, 8)),
        b'y' => desk.committing(rider),
        _ => desk.cancelling(rider),
    };
    let next = a.desk;
    print_answer(
        h.kind,
        [
            i64::from(a.no),
            figure(next.held_by(rider)),
            figure(next.committed_by(rider)),
        ],
    );
    print_row(&[i64::from(next.k)]);
    print_bytes(&next.held);
    print_bytes(&next.committed);
    next
}

// ---- commands

// At the end of the input the bytes stay as they are here: the case ends, with z = 1.
fn next_head(bytes: &[u8]) -> Head {
    let mut b = [b'e', 1, 0, 0, 0, 0];
    io::read_full(0, &mut b);
    Head {
        kind: b[0],
        z: b[1],
        k: number_at(bytes, 0),
        x: usize::from(u16::from_le_bytes([b[2], b[3]])),
        y: usize::from(u16::from_le_bytes([b[4], b[5]])),
    }
}

// Does the input go on after the case? Nothing says that it ends, so the commands are counted, up to a number that no input reaches. n words are in use.
fn run_commands(words: &mut [i32], bytes: &mut [u8]) -> bool {
    let mut n: usize = 0;
    let mut desk = Desk::fresh();
    for _ in 0..u64::MAX {
        let h = next_head(bytes);
        let end = h.y.min(bytes.len());
        let part = &mut bytes[h.x.min(end)..end];
        match h.kind {
            b'e' => return h.z == 0,
            b'i' => {
                io::read_full(0, part);
            }
            b't' => {
                io::read_full(0, part);
                io::write_all(1, part);
            }
            b'm' => n = words_of(part, words),
            b'r' | b'g' | b'w' | b'x' => run_lent(h, &words[..n], part),
            b's' | b'b' | b'p' => print_part(h, part),
            b'f' if !part.is_empty() => desk = filled(part),
            b'o' | b'h' | b'y' | b'n' | b'f' => desk = serve(h, desk, part),
            _ => print_call(h.kind, ask(h, &words[..n], part)),
        }
    }
    false
}

fn run_case() -> bool {
    let mut words = [0i32; 4300];
    let mut bytes = [77u8; 40960];
    run_commands(&mut words, &mut bytes)
}

fn main() {
    for _ in 0..u64::MAX {
        if !run_case() {
            break;
        }
    }
}
