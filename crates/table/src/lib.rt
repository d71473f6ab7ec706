// The least cost-to-go of every state and the cost of every action: equation (5), one pass over the lines from the last state to the first.
#![tactic(auto)]

ghost use Rattle.std.specs.Prelude.{◌≡◌, cond, ◌<◌, ◌≤◌, length};
ghost use Rattle.model.specs.Lists.{up_from};
ghost use Rattle.model.specs.Model.{state_count};
ghost use Rattle.model.specs.Recursion.{best_of};
ghost use Rattle.index.specs.Index.{Indexed};
ghost use Rattle.sets.specs.Sets.{has, free};
ghost use Rattle.feasible.specs.Barred.{Leaves, BarredOf};
ghost use Rattle.table.specs.Table.{Chosen, better, row_of, RowBounded, Filled, TableOf};

use book::Sizes;
use sets::Set;

// The better of the best action so far and action c of state p, unless c is in the set `mask`. The lower number wins among equals.
fn best_of_two(q: &[i64; 512], p: usize, best: usize, c: usize, mask: u8) -> usize
    requires { (p < 64) × (c < 8) × Chosen best }
    ensures { result ≡ cond (has mask c) best (better (row_of q.now p) best c) }
{
    if mask.has(c) {
        best
    } else if best == 255 || q[8 * p + c] < q[8 * p + best] {
        c
    } else {
        best
    }
}

// The first best action of state p among the first n that are not in the set `mask`; 255 where there is none.
pub fn best_action(q: &[i64; 512], p: usize, n: usize, mask: u8) -> usize
    requires { (p < 64) × (n ≤ 8) }
    ensures { result ≡ best_of (row_of q.now p) (free mask (up_from 0 n)) }
{
    // 255 and no Option: best_of, which the contract names, is 255 of no action
    let mut best: usize = 255;
    for c in 0..n {
        best = best_of_two(q, p, best, c, mask);
    }
    best
}

// The costs of the actions of state p that are not in the set `off`, where v has the least costs-to-go of their next states.
fn fill_row(
    b: &[i32],
    z: Sizes,
    x: &[usize; 192],
    p: usize,
    off: u8,
    q: &mut [i64; 512],
    v: &[i64; 64],
)
    requires { Indexed b.now z x.now × (p < state_count b.now) × Leaves b.now p off × RowBounded b.now p v.now × (length q.old ≡ 512) }
    ensures { Filled b.now p v.now q.old q.new }
{
    let n = index::count(b, z, p);
    let unit = costs::unit(b, z, x, p);
    let mut j = x[p];
    for c in 0..n {
        if !off.has(c) {
            let a = lines::of_line(b, z, x, p, c, j);
            q[8 * p + c] = costs::action_cost(b, a, p, c, unit, v);
        }
        j = index::line_after(b, z, p, c, j);
    }
}

pub fn zero_rows() -> [i64; 512]
    ensures { length result ≡ 512 }
{
    [0; 512]
}

pub fn zeros() -> [i64; 64]
    ensures { length result ≡ 64 }
{
    [0; 64]
}

// Fills q and v with the table of a checked book, where `off` has the actions that no policy can take: at 8 × p + c of q the cost of action c of state p with
// best actions ever after, at p of v the least cost-to-go of state p. No cost is multiplied or written for those actions, and v gets no entry for a state that
// has no other: no sum reads one. Rows of eight in one array: row_of, on which the definition TableOf rests, has it so.
pub fn fill_table(
    b: &[i32],
    z: Sizes,
    x: &[usize; 192],
    off: &[u8; 64],
    q: &mut [i64; 512],
    v: &mut [i64; 64],
)
    requires { Indexed b.now z x.now × BarredOf b.now off.now × (length q.old ≡ 512) × (length v.old ≡ 64) }
    ensures { TableOf b.now q.new v.new }
{
    for p in (0..z.s).rev() {
        let mask = off[p];
        fill_row(b, z, x, p, mask, q, v);
        let n = index::count(b, z, p);
        let best = best_action(q, p, n, mask);
        if best < 8 {
            v[p] = q[8 * p + best];
        }
    }
}
