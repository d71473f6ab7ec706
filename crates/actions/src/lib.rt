// The questions 9 to 13 of one action.
#![tactic(auto)]

ghost use Rattle.std.specs.Prelude.{◌≡◌, true, ◌&&◌, cond, ◌+◌, ◌-◌, ◌<◌, ◌≤◌, eqb, pos, length};
ghost use Rattle.model.specs.Lists.{all};
ghost use Rattle.model.specs.Model.{word};
ghost use Rattle.model.specs.Questions.{most_branches, branches_allowed, open_size};
ghost use Rattle.questions.specs.Sizes.{Sized};
ghost use Rattle.book.specs.Read.{SizesAre};
ghost use Rattle.actions.specs.Action.{next_above, next_allowed, weights_fit, InColumn, ActionRead, action_number};
ghost use Rattle.refusal.specs.Refusal.{number_in};

use book::Sizes;
use refusal::Refusal;

// How many transitions an action of a state before stage H has.
const FEWEST_BRANCHES: i32 = 0;

const MOST_BRANCHES: i32 = 6;

// What an action costs at most without its sign, in seconds.
const MOST_COST: usize = 100000;

// What the actions of one state are asked by: its stage, how many states the next stage has, and the largest cost that question 13 allows.
#[derive(Clone, Copy)]
pub struct Limits {
    pub n: usize,
    pub width: usize,
    pub most: usize,
}

// Do the r transitions whose lines begin at word `at` pass 12, and do their next states rise from 0 on? One loop asks both, so that a line is met once.
fn lines_rise(b: &[i32], at: usize, l: usize, r: usize, d: usize) -> bool
    requires { (at + l + r ≤ length b.now) × (length b.now ≤ 4172) }
    ensures { result ≡ (all r (next_above b.now at) && weights_fit b.now (at + l) r d) }
{
    let mut before: i32 = -1;
    let mut sum: usize = 0;
    for i in 0..r {
        if !book::word_above(b, at + i, before) {
            return false;
        }
        if !book::word_above(b, at + l + i, 0) {
            return false;
        }
        before = book::word_at(b, at + i);
        sum = sum + book::size_at(b, at + l + i);
    }
    sum <= d
}

// 11 and 12, of r transitions whose lines begin at word `at`, into a stage of `width` states. Next states that rise lie within it if the last does.
fn lines_allowed(b: &[i32], z: Sizes, at: usize, r: usize, width: usize) -> bool
    requires { (at + z.l + r ≤ length b.now) × (length b.now ≤ 4172) }
    ensures { result ≡ (all r (next_allowed b.now at width) && weights_fit b.now (at + z.l) r z.d) }
{
    if r == 0 {
        return true;
    }
    if !lines_rise(b, at, z.l, r, z.d) {
        return false;
    }
    book::word_below(b, at + (r - 1), width)
}

// 11 by itself, which tells a book's number where one of the two fails.
fn nexts_allowed(b: &[i32], at: usize, r: usize, width: usize) -> bool
    requires { (at + r ≤ length b.now) × (length b.now ≤ 4172) }
    ensures { result ≡ all r (next_allowed b.now at width) }
{
    let mut prev: i32 = -1;
    for i in 0..r {
        if !book::word_above(b, at + i, prev) {
            return false;
        }
        if !book::word_below(b, at + i, width) {
            return false;
        }
        prev = book::word_at(b, at + i);
    }
    true
}

// The most transitions of an action of a state of stage n.
fn most_branches(n: usize, h: usize) -> i32
    ensures { result ≡ cond (eqb n h) (pos 0) (pos most_branches) }
{
    if n == h { 0 } else { MOST_BRANCHES }
}

// 9, of the action of a state of stage n whose first line is at word `at`: is r as allowed, and do its lines fit?
pub fn action_fits(b: &[i32], z: Sizes, n: usize, at: usize) -> bool
    requires { Sized b.now × SizesAre b.now z × InColumn z at }
    ensures { result ≡ branches_allowed b.now n (at - z.columns) }
{
    let most = most_branches(n, z.h);
    if !book::word_in(b, at, FEWEST_BRANCHES, most) {
        return false;
    }
    let end = z.columns + z.l;
    at + 1 + book::size_at(b, at) <= end
}

// The cost at word i without its sign; 0 where it is the mark of a closed action.
fn open_size(b: &[i32], i: usize) -> usize
    requires { i < length b.now }
    ensures { result ≡ open_size (word b.now i) }
{
    if book::is_closed(b, i) {
        return 0;
    }
    book::size_at(b, i)
}

// The questions 10 to 13, of the action of r transitions whose first line is at word `at`.
pub fn action_number(b: &[i32], z: Sizes, q: Limits, at: usize, r: usize) -> Result<(), Refusal>
    requires { Sized b.now × SizesAre b.now z × ActionRead b.now z q at r }
    ensures { number_in result ≡ action_number q.most b.now q.n (at - z.columns) }
{
    let l = z.l;
    let size = open_size(b, at + l);
    if MOST_COST < size {
        return Err(Refusal::Cost);
    }
    if !lines_allowed(b, z, at + 1, r, q.width) {
        if !nexts_allowed(b, at + 1, r, q.width) {
            return Err(Refusal::NextStates);
        }
        return Err(Refusal::Weights);
    }
    if q.most < size {
        return Err(Refusal::CostBound);
    }
    Ok(())
}
