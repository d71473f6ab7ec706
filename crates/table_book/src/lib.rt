// The book of a planners' table: its sizes, and its words, put to the front of a slice.
#![tactic(auto)]

ghost use Rattle.std.specs.Prelude.{◌≡◌, ◌+◌, ◌*◌, ◌-◌, ◌≤◌, length, take, drop};
ghost use Rattle.model.specs.Calls.{over};
ghost use Rattle.bytes_io.specs.Slices.{written};
ghost use Rattle.reward_table.specs.Table.{table_lines};
ghost use Rattle.reward_table.specs.Read.{Given, TableRead};
ghost use Rattle.reward_table.specs.Convert.{table_book};
ghost use Rattle.table_book.specs.Columns.{turned_from, Turnable, column_from, repeated, book_column, book_counts, book_sizes};
ghost use Rattle.table_book.specs.Read.{SizesOf, Passed, Made};

use reward_table::Table;

// The sizes of the book that a table gives.
#[derive(Clone, Copy)]
pub struct Sizes {
    // the first line of the table's first state, and how many lines that state has
    pub from: usize,
    pub first: usize,
    // how many lines all the table's states have
    pub body: usize,
    // L, S and the length in words of the book
    pub lines: usize,
    pub states: usize,
    pub length: usize,
}

// By the lines of the first state, `from` to `to`, and of all states, `body`.
fn sizes_of(h: usize, n: usize, from: usize, to: usize, body: usize) -> Sizes
    requires { (1 ≤ h) × (h ≤ 8) × (n ≤ 16) × (from ≤ to) × (to ≤ 2048) × (body ≤ 2048) }
    ensures { SizesOf h n from to body result }
{
    let first = to - from;
    let lines = first + (h - 1) * body + n;
    let states = 1 + h * n;
    Sizes {
        from,
        first,
        body,
        lines,
        states,
        length: 4 + h + states + 2 * lines,
    }
}

// The sizes of the book of a table that passes 25 and 26: so the lines of its states are all but those of the closings.
pub fn measure(t: &[i32], z: Table) -> Sizes
    requires { Passed t.now z }
    ensures { Made t.now result }
{
    let from = reward_table::walk_to(t, z, z.first).unwrap();
    let to = reward_table::walk_state(t, z, z.first, from).unwrap();
    sizes_of(z.h, z.n, from, to, z.l - z.n)
}

// ---- runs of words, written from index `at` on

// `count` words that stand in `out` from word `from` on, m times more after them. They are given by place and length: `out` is read and written at once.
fn repeat(out: &mut [i32], from: usize, count: usize, m: usize)
    requires { from + count + m * count ≤ length out.old }
    ensures { out.new ≡ written out.old (from + count) (m * count) (repeated m (take count (drop from out.old))) }
{
    let at = from + count;
    for k in 0..m {
        out.copy_within(from..at, at + k * count);
    }
}

// The right column of `count` lines from line j on, with each reward negated.
fn turn_lines(t: &[i32], z: Table, j: usize, count: usize, out: &mut [i32], at: usize)
    requires { Given t.now × TableRead t.now z × (j + count ≤ table_lines t.now) × Turnable t.now 0 j count × (at + count ≤ length out.old) }
    ensures { out.new ≡ written out.old at count (turned_from t.now 0 j count) }
{
    let left = z.columns + j;
    let right = left + z.l;
    // how many lines of the action are left
    let mut rest = 0;
    for i in 0..count {
        let x = t[right + i];
        if rest == 0 {
            out[at + i] = -x;
            rest = book::size_at(t, left + i);
        } else {
            out[at + i] = x;
            rest -= 1;
        }
    }
}

// One of the two columns, of `count` lines from line j on. `right` says which: `column_from` of specs/ takes a Bool.
fn put_lines(t: &[i32], z: Table, right: bool, j: usize, count: usize, out: &mut [i32], at: usize)
    requires { Given t.now × TableRead t.now z × (j + count ≤ table_lines t.now) × Turnable t.now 0 j count × (at + count ≤ length out.old) }
    ensures { out.new ≡ written out.old at count (column_from t.now right j count) }
{
    if right {
        turn_lines(t, z, j, count, out, at);
    } else {
        let left = z.columns + j;
        out[at..at + count].copy_from_slice(&t[left..left + count]);
    }
}

// ---- the parts of the book

// The column of all states' lines, once for each stage between the first and the last: it is made once, and copied.
fn put_stages(t: &[i32], z: Table, right: bool, body: usize, out: &mut [i32], at: usize)
    requires { Given t.now × TableRead t.now z × (body ≤ table_lines t.now) × Turnable t.now 0 0 body × (at + (z.h - 1) * body ≤ length out.old) }
    ensures { out.new ≡ written out.old at ((z.h - 1) * body) (repeated (z.h - 1) (column_from t.now right 0 body)) }
{
    let m = z.h - 1;
    if m == 0 {
        return;
    }
    put_lines(t, z, right, 0, body, out, at);
    repeat(out, at, body, m - 1);
}

// A column of the book.
fn put_column(t: &[i32], z: Table, s: Sizes, right: bool, out: &mut [i32], at: usize)
    requires { Passed t.now z × Made t.now s × (at + s.lines ≤ length out.old) }
    ensures { out.new ≡ written out.old at s.lines (book_column t.now right) }
{
    put_lines(t, z, right, s.from, s.first, out, at);
    put_stages(t, z, right, s.body, out, at + s.first);
    put_lines(
        t,
        z,
        right,
        s.body,
        z.n,
        out,
        at + s.first + (z.h - 1) * s.body,
    );
}

// The counts of actions of all states, once for each stage between the first and the last.
fn put_later_counts(t: &[i32], z: Table, out: &mut [i32], at: usize)
    requires { Given t.now × TableRead t.now z × (at + (z.h - 1) * z.n ≤ length out.old) }
    ensures { out.new ≡ written out.old at ((z.h - 1) * z.n) (repeated (z.h - 1) (take z.n (drop 5 t.now))) }
{
    let n = z.n;
    for k in 0..z.h - 1 {
        let to = at + k * n;
        out[to..to + n].copy_from_slice(&t[5..5 + n]);
    }
}

// How many actions each state of the book has.
fn put_counts(t: &[i32], z: Table, out: &mut [i32], at: usize)
    requires { Given t.now × TableRead t.now z × (at + (1 + z.h * z.n) ≤ length out.old) }
    ensures { out.new ≡ written out.old at (1 + z.h * z.n) (book_counts t.now) }
{
    out[at] = t[5 + z.first];
    put_later_counts(t, z, out, at + 1);
    let last = at + 1 + (z.h - 1) * z.n;
    out[last..last + z.n].fill(1);
}

// D, H, L and how many states each stage has.
fn put_sizes(z: Table, lines: usize, out: &mut [i32])
    requires { (z.d ≤ 100) × (z.h ≤ 8) × (z.n ≤ 16) × (lines ≤ 32768) × (4 + z.h ≤ length out.old) }
    ensures { out.new ≡ written out.old 0 (4 + z.h) (book_sizes z.d z.h z.n lines) }
{
    out[0] = z.d as i32;
    out[1] = z.h as i32;
    out[2] = lines as i32;
    out[3] = 1;
    out[4..4 + z.h].fill(z.n as i32);
}

// The book, to the front of `out`.
pub fn put_book(t: &[i32], z: Table, s: Sizes, out: &mut [i32])
    requires { Passed t.now z × Made t.now s × (s.length ≤ length out.old) }
    ensures { out.new ≡ over (table_book t.now) out.old }
{
    let at = 4 + z.h;
    put_sizes(z, s.lines, out);
    put_counts(t, z, out, at);
    put_column(t, z, s, false, out, at + s.states);
    put_column(t, z, s, true, out, at + s.states + s.lines);
}
