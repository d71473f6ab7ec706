// The lines of one action of a checked book: where they lie and what they say. Every pass over transitions reads them here. The look-ups take p and c
// so that their contracts can name the action.
#![tactic(auto)]

ghost use Rattle.std.specs.Prelude.{◌≡◌, ◌+◌, ◌<◌, ◌≤◌};
ghost use Rattle.model.specs.Model.{first_state, state_count, stage, action_count, action_line, action, closed};
ghost use Rattle.model.specs.Questions.{book_number};
ghost use Rattle.book.specs.Read.{StageFor};
ghost use Rattle.index.specs.Index.{Checked, Indexed, ActionAt};
ghost use Rattle.lines.specs.Lines.{word_of, WordOf, FoundIs, LinesOf, NextIs, WeightIs};

use book::{Sizes, Stage};

// Where the lines of an action lie: its first line at word `at`, its r transitions in the words after that. What stands in the right column is
// l words further on. Next states are counted from state `base`.
#[derive(Clone, Copy)]
pub struct Lines {
    pub at: usize,
    pub r: usize,
    pub l: usize,
    pub base: usize,
}

// Where an action of a state begins, and where the lines of the next state do.
#[derive(Clone, Copy)]
pub struct Found {
    pub at: usize,
    pub after: usize,
}

// The sizes of a checked book. Its length says how many states it has, so no counts are added.
pub fn sizes(b: &[i32]) -> Sizes
    requires { book_number b.now ≡ 0 }
    ensures { Checked b.now result }
{
    let h = book::size_at(b, 1);
    let l = book::size_at(b, 2);
    let n = b.len();
    let columns = n - 2 * l;
    Sizes {
        d: book::size_at(b, 0),
        h,
        l,
        s: columns - 4 - h,
        columns,
    }
}

// The word after the lines of action c of state p, which begin at word k.
fn word_after(b: &[i32], z: Sizes, p: usize, c: usize, k: usize) -> usize
    requires { Checked b.now z × WordOf b.now p c k }
    ensures { result ≡ word_of b.now p (c + 1) }
{
    k + 1 + index::plain_at(b, k)
}

// Walks the actions of state p, whose lines begin at word `from`, and keeps where action c begins. One walk, whatever c is: no jump waits for it.
fn find_walking(b: &[i32], z: Sizes, p: usize, from: usize, c: usize) -> Found
    requires { Checked b.now z × (p < state_count b.now) × (from ≡ word_of b.now p 0) }
    ensures { FoundIs b.now p c result }
{
    let n = index::count(b, z, p);
    let mut at = from;
    let mut k = from;
    for d in 0..n {
        if d == c {
            at = k;
        }
        k = word_after(b, z, p, d, k);
    }
    Found { at, after: k }
}

// Where action c of state p begins, whose stage is t and whose lines begin at word `from`. At the last stage every action is one line.
pub fn find(b: &[i32], z: Sizes, t: Stage, p: usize, from: usize, c: usize) -> Found
    requires { Checked b.now z × StageFor b.now p t × (p < state_count b.now) × (from ≡ word_of b.now p 0) × (c ≤ 255) }
    ensures { FoundIs b.now p c result }
{
    if t.n == z.h {
        return Found {
            at: from + c,
            after: from + index::count(b, z, p),
        };
    }
    find_walking(b, z, p, from, c)
}

// Is action c of state p closed, whose lines begin at word `at`?
pub fn closed_at(b: &[i32], z: Sizes, p: usize, c: usize, at: usize) -> bool
    requires { Checked b.now z × WordOf b.now p c at }
    ensures { result ≡ closed (action b.now p c).cost }
{
    book::is_closed(b, at + z.l)
}

// The lines of action c of state p, which begin at word `at`; `base` is the first state of the next stage.
pub fn at_word(b: &[i32], z: Sizes, p: usize, c: usize, at: usize, base: usize) -> Lines
    requires { Checked b.now z × WordOf b.now p c at × (base ≡ first_state b.now (stage b.now p + 1)) }
    ensures { LinesOf b.now p c result }
{
    Lines {
        at,
        r: index::plain_at(b, at),
        l: z.l,
        base,
    }
}

// The lines of action c of state p, whose first line is line j.
pub fn of_line(b: &[i32], z: Sizes, x: &[usize; 192], p: usize, c: usize, j: usize) -> Lines
    requires { Indexed b.now z x.now × ActionAt b.now p c j }
    ensures { LinesOf b.now p c result }
{
    at_word(b, z, p, c, z.columns + j, x[64 + p])
}

// The first line of action c of state p. At the last stage every action is one line, so none is walked over.
fn line_of(b: &[i32], z: Sizes, x: &[usize; 192], p: usize, c: usize) -> usize
    requires { Indexed b.now z x.now × (p < state_count b.now) × (c < action_count b.now p) }
    ensures { result ≡ action_line b.now p c }
{
    let line = x[p];
    if x[128 + p] == 0 {
        return line + c;
    }
    index::action_line(b, z, p, line, c)
}

// The lines of action c of state p.
pub fn of_action(b: &[i32], z: Sizes, x: &[usize; 192], p: usize, c: usize) -> Lines
    requires { Indexed b.now z x.now × (p < state_count b.now) × (c < action_count b.now p) }
    ensures { LinesOf b.now p c result }
{
    let j = line_of(b, z, x, p, c);
    of_line(b, z, x, p, c, j)
}

// The cost of the action.
pub fn cost(b: &[i32], t: Lines, p: usize, c: usize) -> i64
    requires { LinesOf b.now p c t }
    ensures { result ≡ (action b.now p c).cost }
{
    b[t.at + t.l] as i64
}

// Is the action closed?
pub fn is_closed(b: &[i32], t: Lines, p: usize, c: usize) -> bool
    requires { LinesOf b.now p c t }
    ensures { result ≡ closed (action b.now p c).cost }
{
    book::is_closed(b, t.at + t.l)
}

// The next state of transition i.
pub fn next(b: &[i32], t: Lines, p: usize, c: usize, i: usize) -> usize
    requires { LinesOf b.now p c t × (i < t.r) }
    ensures { NextIs b.now p c i result }
{
    t.base + index::plain_at(b, t.at + 1 + i)
}

// The weight of transition i.
pub fn weight(b: &[i32], t: Lines, p: usize, c: usize, i: usize) -> usize
    requires { LinesOf b.now p c t × (i < t.r) }
    ensures { WeightIs b.now p c i result }
{
    index::plain_at(b, t.at + 1 + t.l + i)
}
