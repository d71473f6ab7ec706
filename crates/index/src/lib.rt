// Where each state of a checked book stands in its lines and in its stages, so that every later pass can go straight there.
#![tactic(auto)]

ghost use Rattle.std.specs.Prelude.{◌≡◌, ◌+◌, ◌<◌, ◌≤◌, length};
ghost use Rattle.model.specs.Model.{word, state_count, state_line, action_count, action_line};
ghost use Rattle.book.specs.Read.{SizeIs};
ghost use Rattle.index.specs.Index.{NotBelow0, Checked, ActionAt, Indexed};

use book::{Sizes, Stage};

// Word i, which is not below 0. Checking has looked at the signs, so no pass after it has to.
pub fn plain_at(b: &[i32], i: usize) -> usize
    requires { (i < length b.now) × NotBelow0 (word b.now i) }
    ensures { SizeIs (word b.now i) result }
{
    b[i] as usize
}

// The line after those of action c of state p, whose first line is line j.
pub fn line_after(b: &[i32], z: Sizes, p: usize, c: usize, j: usize) -> usize
    requires { Checked b.now z × ActionAt b.now p c j }
    ensures { result ≡ action_line b.now p (c + 1) }
{
    j + 1 + plain_at(b, z.columns + j)
}

// The first line of action c of state p, whose first line is `line`; for c = its number of actions, that of the next state.
pub fn action_line(b: &[i32], z: Sizes, p: usize, line: usize, c: usize) -> usize
    requires { Checked b.now z × (p < state_count b.now) × (line ≡ state_line b.now p) × (c ≤ action_count b.now p) }
    ensures { result ≡ action_line b.now p c }
{
    let mut j = line;
    for d in 0..c {
        j = line_after(b, z, p, d, j);
    }
    j
}

// How many actions state p has.
pub fn count(b: &[i32], z: Sizes, p: usize) -> usize
    requires { Checked b.now z × (p < state_count b.now) }
    ensures { result ≡ action_count b.now p }
{
    book::size_at(b, 4 + z.h + p)
}

// Fills x for each state p: at p its first line, at 64 + p the first state of the next stage, at 128 + p the stages still to come. Three parts of one array
// of numbers and no array of structs: the definition IndexTo, which the contracts of every pass rest on, has it so.
pub fn fill_index(b: &[i32], z: Sizes, x: &mut [usize; 192])
    requires { Checked b.now z × (length x.old ≡ 192) }
    ensures { Indexed b.now z x.new }
{
    let mut t = Stage { n: 0, end: 1 };
    let mut at: usize = 0;
    for p in 0..z.s {
        t = book::stage_for(b, z, t, p);
        x[p] = at;
        x[64 + p] = t.end;
        x[128 + p] = z.h - t.n;
        let n = count(b, z, p);
        at = action_line(b, z, p, at, n);
    }
}

// The index by value.
pub fn index(b: &[i32], z: Sizes) -> [usize; 192]
    requires { Checked b.now z }
    ensures { Indexed b.now z result }
{
    let mut x = [0; 192];
    fill_index(b, z, &mut x);
    x
}
