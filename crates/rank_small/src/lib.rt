// The K best policies of a book with at most 4,096 of them, by going through all of them in the order of their bytes (request 2.11). Each is made from the
// one before it and valued by itself.
#![tactic(auto)]

ghost use Rattle.std.specs.Prelude.{◌≡◌, true, ◌≤◌, T, length, take, IfOk};
ghost use Rattle.model.specs.Model.{state_count};
ghost use Rattle.model.specs.Policy.{is_policy, policies, has_policy};
ghost use Rattle.model.specs.Path.{policy_cost};
ghost use Rattle.model.specs.Order.{ranking};
ghost use Rattle.model.specs.Calls.{most_small, is_small, room_of, small_number, small_count, small_costs, small_plans};
ghost use Rattle.index.specs.Index.{Indexed};
ghost use Rattle.feasible.specs.Barred.{BarredOf};
ghost use Rattle.best_kept.specs.Placed.{Ascends, Placed};
ghost use Rattle.best_kept.specs.Holding.{Holds};
ghost use Rattle.rank_small.specs.Small.{RoomFor};
ghost use Rattle.refusal.specs.Refusal.{number_in};

use book::Sizes;
use refusal::Refusal;
use sets::Set;

// A book with more policies than this is refused.
const MOST_POLICIES: usize = 4096;

// 30: has the book no more policies than the limit? They are counted only where that is not seen at once.
fn is_small(b: &[i32], z: Sizes, x: &[usize; 192], off: &[u8; 64]) -> bool
    requires { Indexed b.now z x.now × BarredOf b.now off.now × (has_policy b.now ≡ true) }
    ensures { result ≡ is_small b.now }
{
    if enumerate::few_at_sight(b, z, off, MOST_POLICIES) {
        return true;
    }
    let s = z.s;
    let mut row = [0; 64];
    let mut reach = [0; 64];
    let n = enumerate::count_to(b, z, x, off, MOST_POLICIES, &mut row[..s], &mut reach);
    n <= MOST_POLICIES
}

// The policy goes in among the n that are listed, of which at most k are kept.
fn join(
    b: &[i32],
    z: Sizes,
    x: &[usize; 192],
    k: usize,
    n: usize,
    plan: &[u8],
    costs: &mut [i64],
    plans: &mut [u8],
) -> usize
    requires { Indexed b.now z x.now × RoomFor b.now k costs.old plans.old × (n ≤ k) × T (is_policy b.now plan.now) × Ascends (take n costs.old) }
    ensures { Placed n k (policy_cost b.now plan.now) plan.now result costs.old costs.new plans.old plans.new }
{
    let cost = policy_cost::cost(b, z, x, plan);
    best_kept::keep(costs, plans, n, k, cost, plan)
}

// Goes through the policies of the book and keeps the first k; gives how many these are. `plan` is written over. That the loop ends is shown by j, the number of
// policies met.
fn go_through(
    b: &[i32],
    z: Sizes,
    x: &[usize; 192],
    off: &[u8; 64],
    k: usize,
    plan: &mut [u8],
    costs: &mut [i64],
    plans: &mut [u8],
) -> usize
    requires { Indexed b.now z x.now × BarredOf b.now off.now × (has_policy b.now ≡ true) × (length (policies b.now) ≤ most_small) × (length plan.old ≡ state_count b.now) × RoomFor b.now k costs.old plans.old }
    ensures { Holds (policy_cost b.now) (ranking b.now k) result costs.old costs.new plans.old plans.new }
{
    let mut reach = [0; 64];
    enumerate::first(b, z, x, off, plan, &mut reach);
    let mut n: usize = 0;
    let mut j: usize = 0;
    let mut more = true;
    while more {
        n = join(b, z, x, k, n, plan, costs, plans);
        more = enumerate::next(b, z, x, off, plan, &mut reach);
        j = j + 1;
    }
    n
}

// The list for any book, count and slices: how many policies it has. A refusal writes nothing.
pub fn rank_small(
    b: &[i32],
    k: usize,
    costs: &mut [i64],
    plans: &mut [u8],
) -> Result<usize, Refusal>
    ensures number { number_in result ≡ small_number b.now (room_of k costs.old plans.old) }
    ensures count { IfOk result (λ n. n ≡ small_count b.now (room_of k costs.old plans.old)) }
    ensures costs { costs.new ≡ small_costs b.now k costs.old plans.old }
    ensures plans { plans.new ≡ small_plans b.now k costs.old plans.old }
{
    asked::counted_number(b, k)?;
    let z = lines::sizes(b);
    // filled here: given by value it would be copied, which takes long beside a book of few plans
    let mut x = [0; 192];
    index::fill_index(b, z, &mut x);
    let m = feasible::find_barred(b, z, &x);
    if m.dead.has(0) {
        return Err(Refusal::NoPlan);
    }
    if !is_small(b, z, &x, &m.off) {
        return Err(Refusal::ManyPlans);
    }
    if costs.len() < k {
        return Err(Refusal::CostRoom);
    }
    let s = z.s;
    if plans.len() < k * s {
        return Err(Refusal::PlanRoom);
    }
    let mut row = [0; 64];
    Ok(go_through(b, z, &x, &m.off, k, &mut row[..s], costs, plans))
}
