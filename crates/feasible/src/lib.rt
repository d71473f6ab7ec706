// Which actions of a checked book a policy can take: not those that are closed, nor those that lead to a state from which no policy goes on. One pass
// over the actions, from the last state to the first.
#![tactic(auto)]

ghost use Rattle.std.specs.Prelude.{◌≡◌, ◌+◌, ◌<◌, ◌≤◌};
ghost use Rattle.model.specs.Lists.{is_empty, up_from};
ghost use Rattle.model.specs.Model.{state_count, action};
ghost use Rattle.model.specs.Questions.{book_number};
ghost use Rattle.model.specs.Policy.{has_policy};
ghost use Rattle.index.specs.Index.{Indexed};
ghost use Rattle.lines.specs.Lines.{LinesOf};
ghost use Rattle.sets.specs.Sets.{free};
ghost use Rattle.feasible.specs.Barred.{avoids, goes_by, DeadFrom, Leaves, BarredFrom};

use book::Sizes;
use lines::Lines;
use sets::Set;

// For each state the set of its actions that no policy can take, and the set of the states all of whose actions are such.
#[derive(Drop)]
pub struct Barred {
    pub off: [u8; 64],
    pub dead: u64,
}

// Does action c of state p lead to no state of the set `dead`?
fn avoids(b: &[i32], a: Lines, p: usize, c: usize, dead: u64) -> bool
    requires { LinesOf b.now p c a }
    ensures { result ≡ avoids dead (action b.now p c).transitions }
{
    // no `all` over the range: tried, and slower
    for i in 0..a.r {
        if dead.has(lines::next(b, a, p, c, i)) {
            return false;
        }
    }
    true
}

// Is action c of state p open, and does it lead to no state of the set `dead`? Where the set is empty no line is looked at.
fn goes_on(b: &[i32], a: Lines, p: usize, c: usize, dead: u64) -> bool
    requires { LinesOf b.now p c a }
    ensures { result ≡ goes_by b.now dead p c }
{
    if lines::is_closed(b, a, p, c) {
        return false;
    }
    if dead == 0 {
        return true;
    }
    avoids(b, a, p, c, dead)
}

// The set of the actions of state p that no policy can take, where `dead` has those of the states after it from which none goes on.
fn barred_at(b: &[i32], z: Sizes, x: &[usize; 192], p: usize, dead: u64) -> u8
    requires { Indexed b.now z x.now × (p < state_count b.now) × DeadFrom b.now (p + 1) dead }
    ensures { Leaves b.now p result }
{
    let n = index::count(b, z, p);
    let mut j = x[p];
    let mut mask: u8 = 0;
    for c in 0..n {
        let a = lines::of_line(b, z, x, p, c, j);
        if !goes_on(b, a, p, c, dead) {
            mask = mask.with(c);
        }
        j = index::line_after(b, z, p, c, j);
    }
    mask
}

// Are all of the first n actions in the set?
fn none_left(mask: u8, n: usize) -> bool
    requires { n ≤ 8 }
    ensures { result ≡ is_empty (free mask (up_from 0 n)) }
{
    // no `all` over the range: tried, and slower
    for c in 0..n {
        if !mask.has(c) {
            return false;
        }
    }
    true
}

// The actions that no policy can take, of every state of a checked book.
pub fn find_barred(b: &[i32], z: Sizes, x: &[usize; 192]) -> Barred
    requires { Indexed b.now z x.now }
    ensures { BarredFrom b.now 0 result.off result.dead }
{
    let mut off = [0u8; 64];
    let mut dead: u64 = 0;
    for p in (0..z.s).rev() {
        let mask = barred_at(b, z, x, p, dead);
        off[p] = mask;
        let n = index::count(b, z, p);
        if none_left(mask, n) {
            dead = dead.with(p);
        }
    }
    Barred { off, dead }
}

// 28: has a checked book a policy?
pub fn has_policy(b: &[i32]) -> bool
    requires { book_number b.now ≡ 0 }
    ensures { result ≡ has_policy b.now }
{
    let z = book::read_sizes(b);
    let x = index::index(b, z);
    let m = find_barred(b, z, &x);
    !m.dead.has(0)
}
