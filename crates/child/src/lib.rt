// The child of a candidate at a state: its action, its barred actions, and its cost, which is its parent's, moved by the reach weight of the split state
// times the difference of the two actions' costs.
#![tactic(auto)]

ghost use Rattle.std.specs.Prelude.{◌≡◌, cond, ◌<◌, ◌≤◌, pos, ◌+ℤ◌, ◌-ℤ◌, ◌*ℤ◌, eqb, get_or};
ghost use Rattle.model.specs.Model.{state_count};
ghost use Rattle.index.specs.Index.{Checked};
ghost use Rattle.sets.specs.Sets.{with};
ghost use Rattle.table.specs.Table.{row_of};
ghost use Rattle.build.specs.Best.{RowsOf, BestOf, SecondOf};
ghost use Rattle.child.specs.Move.{Movable};
ghost use Rattle.child.specs.Children.{Parenting, entry_of, next_by, ChildIs};

use book::Sizes;
use sets::Set;

// The candidate whose first policy is listed: its cost, its split state and the set of actions barred there. Its bytes are lent beside it.
#[derive(Clone, Copy)]
pub struct Parent {
    pub cost: i64,
    pub split: usize,
    pub mask: u8,
}

// A child: its cost, the action that it takes at its split state and the set of actions barred there.
#[derive(Clone, Copy)]
pub struct Child {
    pub cost: i64,
    pub action: usize,
    pub mask: u8,
}

fn moved(cost: i64, w: usize, new: i64, old: i64) -> i64
    requires { Movable cost w new old }
    ensures { result ≡ cost +ℤ pos w *ℤ (new -ℤ old) }
{
    cost + (w as i64) * (new - old)
}

// From a parent of cost `cost` that takes action f at state p, to the child that takes action c there.
pub fn child_cost(q: &[i64; 512], w: &[usize; 64], p: usize, c: usize, f: usize, cost: i64) -> i64
    requires { (p < 64) × (c < 8) × (f < 8) × Movable cost (get_or w.now p 0) (row_of q.now p c) (row_of q.now p f) }
    ensures { result ≡ cost +ℤ pos (get_or w.now p 0) *ℤ (row_of q.now p c -ℤ row_of q.now p f) }
{
    moved(cost, w[p], q[8 * p + c], q[8 * p + f])
}

// The set of actions barred at state p when a candidate is split there: its own action f, and at its own split state what was barred before.
pub fn mask_at(split: usize, mask: u8, p: usize, f: usize) -> u8
    requires { f < 8 }
    ensures { result ≡ with (cond (eqb p split) mask 0) f }
{
    let before = if p == split { mask } else { 0 };
    before.with(f)
}

// The best action of state p that is not in `mask`, the set barred when a candidate is split there, nor among those that no policy can take. After its
// own split state only its own action is barred, which is the first best one: the second best is next.
fn next_action(
    b: &[i32],
    z: Sizes,
    q: &[i64; 512],
    best: &[u8; 192],
    split: usize,
    p: usize,
    mask: u8,
) -> usize
    requires { Checked b.now z × BestOf b.now best.now × (p < state_count b.now) }
    ensures { result ≡ next_by b.now q.now best.now split p mask }
{
    if split == p {
        let n = index::count(b, z, p);
        let all = mask.union(best[128 + p]);
        return table::best_action(q, p, n, all);
    }
    best[64 + p] as usize
}

// The child of e at state p, if e reaches p and an action is left there. 255 is no action: the byte of a state that is not reached (document 01), and the
// answer of `next_action`, whose table has bytes.
pub fn child_at(
    b: &[i32],
    z: Sizes,
    q: &[i64; 512],
    best: &[u8; 192],
    w: &[usize; 64],
    plan: &[u8],
    e: Parent,
    p: usize,
) -> Option<Child>
    requires { Checked b.now z × RowsOf b.now q.now × BestOf b.now best.now × SecondOf b.now best.now × Parenting b.now e plan.now w.now × (e.split ≤ p) × (p < state_count b.now) }
    ensures { ChildIs b.now (entry_of e plan.now) p result }
{
    let f = plan[p] as usize;
    if f == 255 {
        return None;
    }
    let mask = mask_at(e.split, e.mask, p, f);
    let c = next_action(b, z, q, best, e.split, p, mask);
    if c == 255 {
        return None;
    }
    let cost = child_cost(q, w, p, c, f, e.cost);
    Some(Child {
        cost: cost,
        action: c,
        mask: mask,
    })
}
