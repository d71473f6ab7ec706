// The K best policies of a checked book. The first candidate is all policies. The first policy of the first candidate that waits is listed, and what is
// left of its set is split, at each state that it reaches from its own split state on. A candidate that K others come before is let go: no policy of
// its set is among the first K.
//
// What is read of the book is lent: x (where each state stands), nx (the next states of each action), q (the
// cost of each action) and best (the first and the second best action of each state, and its actions that no policy can take).
#![tactic(auto)]

ghost use Rattle.std.specs.Prelude.{◌≡◌, [], ◌∷◌, ◌*◌, ◌<◌, ◌≤◌, length};
ghost use Rattle.model.specs.Model.{state_count};
ghost use Rattle.model.specs.Questions.{book_number};
ghost use Rattle.accepted.specs.Options.{Feasible, Alive};
ghost use Rattle.splits.specs.Search.{admit};
ghost use Rattle.stored.specs.Entry.{earlier_entry};
ghost use Rattle.stored.specs.Children.{Right};
ghost use Rattle.stored.specs.Runs.{itself, children_of, run_entries};
ghost use Rattle.index.specs.Index.{Checked, Indexed};
ghost use Rattle.nexts.specs.Nexts.{NextsOf};
ghost use Rattle.build.specs.Best.{BestOf, SecondOf};
ghost use Rattle.build.specs.Walk.{Usable, Walked};
ghost use Rattle.child.specs.Children.{entry_of, child_of, joined};
ghost use Rattle.pool.specs.Entries.{entries, Formed, Holding};
ghost use Rattle.engine.specs.Engine.{Ready, Taken, Startable, Roomy, Found, first_candidate, Ranked};

use book::Sizes;
use child::{Child, Parent};
use pool::Pool;
use sets::Set;

// The pool of at most k with the first candidate: all policies, of which the first takes the first best actions and costs `cost`.
fn first_pool(b: &[i32], z: Sizes, nx: &[u64; 512], best: &[u8; 192], cost: i64, k: usize) -> Pool
    requires { Checked b.now z × NextsOf b.now nx.now × BestOf b.now best.now × Alive b.now 0 × (cost ≡ (first_candidate b.now).cost) × (1 ≤ k) × (k ≤ 64) }
    ensures { Formed result × (result.most ≡ k) × (entries (state_count b.now) result ≡ first_candidate b.now ∷ []) }
{
    let mut room = [0; 64];
    let row = &mut room[..z.s];
    build::build(b, nx, best, &[], 0, best[0] as usize, 1, row);
    pool::single(k, cost, row)
}

// Takes the first candidate that waits away, and its bytes to `plan`.
fn take_first(pool: &mut Pool, plan: &mut [u8]) -> Parent
    requires { Formed pool.old × (1 ≤ pool.old.count) × (length plan.old ≤ 64) }
    ensures { Taken (length plan.old) pool.old pool.new result plan.new }
{
    let slot = pool.order[0] as usize;
    pool::read_row(&pool.plans, slot, plan);
    pool.order[..pool.count].rotate_left(1);
    pool.count -= 1;
    Parent {
        cost: pool.costs[slot],
        split: pool.splits[slot] as usize,
        mask: pool.barred[slot],
    }
}

// The child d of the candidate with the bytes `plan`, split at state p, joins those that wait, of which as many stay as may wait. `from` is the set of the
// states that the bytes before p reach. The bytes of a child that costs more than the last are not needed.
fn join(
    b: &[i32],
    z: Sizes,
    nx: &[u64; 512],
    best: &[u8; 192],
    plan: &[u8],
    p: usize,
    from: u64,
    d: Child,
    pool: &mut Pool,
)
    requires { Checked b.now z × NextsOf b.now nx.now × BestOf b.now best.now × Usable b.now plan.now p × (p < state_count b.now) × Feasible b.now p d.action × Walked b.now plan.now p from × Formed pool.old }
    ensures { Holding (state_count b.now) (joined pool.old.most (child_of b.now plan.now p d) (entries (state_count b.now) pool.old)) pool.old pool.new }
{
    let n = pool.count;
    let k = pool.most;
    if pool::beyond(&pool.costs, &pool.order[..n], k, d.cost) {
        return;
    }
    let mut room = [0; 64];
    let row = &mut room[..z.s];
    build::build(b, nx, best, plan, p, d.action, from, row);
    let i = pool::place(&pool.costs, &pool.plans, &pool.order[..n], d.cost, row);
    if i < k {
        let last = pool::spare_place(n, k);
        let slot = pool.order[last] as usize;
        pool.costs[slot] = d.cost;
        pool::write_row(&mut pool.plans, slot, row);
        pool.splits[slot] = p as u8;
        pool.barred[slot] = d.mask;
        pool::move_up(&mut pool.order, i, last);
        pool.count = last + 1;
    }
}

// The children of the candidate e, whose bytes are `plan`, join those that wait: one at each state from its own split state on that has one.
fn split(
    b: &[i32],
    z: Sizes,
    x: &[usize; 192],
    nx: &[u64; 512],
    q: &[i64; 512],
    best: &[u8; 192],
    plan: &[u8],
    e: Parent,
    pool: &mut Pool,
)
    requires { Ready b.now z x.now nx.now q.now best.now × SecondOf b.now best.now × Right b.now (entry_of e plan.now) × Formed pool.old }
    ensures { Holding (state_count b.now) (admit earlier_entry itself pool.old.most (children_of b.now (entry_of e plan.now)) (entries (state_count b.now) pool.old)) pool.old pool.new }
{
    let mut w = [0; 64];
    reach::reach_weights(b, z, x, plan, &mut w);
    let mut reach = build::reached_before(b, nx, plan, e.split);
    for p in e.split..z.s {
        if let Some(d) = child::child_at(b, z, q, best, &w, plan, e, p) {
            join(b, z, nx, best, plan, p, reach, d, pool);
        }
        reach = build::pass_state(b, nx, plan, p, reach);
    }
}

// The first k policies by the search from the first candidate, whose policy costs `cost`; gives how many there are. The last that is listed is not split.
fn search(
    b: &[i32],
    z: Sizes,
    x: &[usize; 192],
    nx: &[u64; 512],
    q: &[i64; 512],
    best: &[u8; 192],
    cost: i64,
    k: usize,
    costs: &mut [i64],
    plans: &mut [u8],
) -> usize
    requires { Ready b.now z x.now nx.now q.now best.now × Startable b.now cost k best.now × Roomy k (state_count b.now) costs.old plans.old }
    ensures { Found (run_entries b.now k k (first_candidate b.now ∷ [])) result costs.old costs.new plans.old plans.new }
{
    let s = z.s;
    let mut pool = first_pool(b, z, nx, best, cost, k);
    for j in 0..k {
        if pool.count == 0 {
            return j;
        }
        let plan = &mut plans[j * s..j * s + s];
        let e = take_first(&mut pool, plan);
        costs[j] = e.cost;
        if j + 1 < k {
            split(b, z, x, nx, q, best, plan, e, &mut pool);
        }
    }
    k
}

// The first k policies of a checked book with its index, and their costs, at the front of the lent slices; gives how many there are, none where the book has no
// policy.
pub fn list_by(
    b: &[i32],
    z: Sizes,
    x: &[usize; 192],
    k: usize,
    costs: &mut [i64],
    plans: &mut [u8],
) -> usize
    requires { Indexed b.now z x.now × (1 ≤ k) × (k ≤ 64) × Roomy k (state_count b.now) costs.old plans.old }
    ensures { Ranked b.now k result costs.old costs.new plans.old plans.new }
{
    let m = feasible::find_barred(b, z, x);
    if m.dead.has(0) {
        return 0;
    }
    let mut nx = [0; 512];
    nexts::fill_sets(b, z, x, &m.off, &mut nx);
    let mut q = [0; 512];
    let mut v = [0; 64];
    table::fill_table(b, z, x, &m.off, &mut q, &mut v);
    let mut best = [0; 192];
    build::best_actions(b, z, &q, &m.off, k, &mut best);
    search(b, z, x, &nx, &q, &best, v[0], k, costs, plans)
}

// The same by the book alone.
pub fn list(b: &[i32], k: usize, costs: &mut [i64], plans: &mut [u8]) -> usize
    requires { (book_number b.now ≡ 0) × (1 ≤ k) × (k ≤ 64) × Roomy k (state_count b.now) costs.old plans.old }
    ensures { Ranked b.now k result costs.old costs.new plans.old plans.new }
{
    let z = book::read_sizes(b);
    let mut x = [0; 192];
    index::fill_index(b, z, &mut x);
    list_by(b, z, &x, k, costs, plans)
}
