// The next states of every action as a set, so that a walk over the states of a policy needs no line of the book.
#![tactic(auto)]

ghost use Rattle.std.specs.Prelude.{◌≡◌, ◌<◌, length};
ghost use Rattle.model.specs.Model.{state_count, action_count, action};
ghost use Rattle.model.specs.Policy.{nexts};
ghost use Rattle.index.specs.Index.{Indexed};
ghost use Rattle.lines.specs.Lines.{LinesOf};
ghost use Rattle.sets.specs.Sets.{SetOf};
ghost use Rattle.feasible.specs.Barred.{Leaves, BarredOf};
ghost use Rattle.nexts.specs.Nexts.{NextsTo, NextsOf};

use book::Sizes;
use lines::Lines;
use sets::Set;

// The next states of action c of state p.
pub fn next_set(b: &[i32], a: Lines, p: usize, c: usize) -> u64
    requires { LinesOf b.now p c a }
    ensures { SetOf result (nexts (action b.now p c).transitions) }
{
    let mut set: u64 = 0;
    for i in 0..a.r {
        let q = lines::next(b, a, p, c, i);
        set = set.with(q);
    }
    set
}

// The sets of the actions of state p that are not in the set `off`, where t has those of the states before it.
fn fill_state(b: &[i32], z: Sizes, x: &[usize; 192], p: usize, off: u8, t: &mut [u64; 512])
    requires { Indexed b.now z x.now × (p < state_count b.now) × Leaves b.now p off × NextsTo b.now p 0 t.old }
    ensures { NextsTo b.now p (action_count b.now p) t.new }
{
    let n = index::count(b, z, p);
    let mut j = x[p];
    for c in 0..n {
        if !off.has(c) {
            let a = lines::of_line(b, z, x, p, c, j);
            t[8 * p + c] = next_set(b, a, p, c);
        }
        j = index::line_after(b, z, p, c, j);
    }
}

// Fills t: at 8 × p + c the set of the next states of action c of state p, if a policy can take it; `off` has the others.
// Rows of eight in one array: the definition NextsOf has it so.
pub fn fill_sets(b: &[i32], z: Sizes, x: &[usize; 192], off: &[u8; 64], t: &mut [u64; 512])
    requires { Indexed b.now z x.now × BarredOf b.now off.now × (length t.old ≡ 512) }
    ensures { NextsOf b.now t.new }
{
    for p in 0..z.s {
        fill_state(b, z, x, p, off[p], t);
    }
}
