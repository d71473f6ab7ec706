// The candidates that wait in the search, in order. The slots are reached through `order`, so that an insertion moves numbers and not plans. The functions are
// lent the fields that they read or change; `waiting` are the slots of those that wait.
#![tactic(auto)]

ghost use Rattle.std.specs.Prelude.{◌≡◌, [], ◌∷◌, ◌+◌, ◌*◌, ◌<◌, ◌≤◌, length, get_or, take};
ghost use Rattle.std.proofs.Math.Seq.{paste};
ghost use Rattle.model.specs.Order.{lower};
ghost use Rattle.laws.specs.Members.{Every};
ghost use Rattle.pool.specs.Entries.{row, entries, Slots, Ascending, slot_costs, Formed, Cheaper, earlier_than, first_yes, beyond_of, Spare, moved_up};

use std::cmp::Ordering;

// Arrays by slot: the costs are searched by halves, so they stand close together, away from the plans. There is no heap, so how many wait is a number beside.
#[derive(Drop)]
pub struct Pool {
    // by slot
    pub costs: [i64; 64],
    // by slot, 64 bytes each
    pub plans: [u8; 4096],
    // by slot: the state where the candidate splits from its parent
    pub splits: [u8; 64],
    // by slot: the set of actions barred there
    pub barred: [u8; 64],
    // the slots: first those that wait, in order, then the free ones
    pub order: [u8; 64],
    // how many wait
    pub count: usize,
    // how many may wait: K of document 01
    pub most: usize,
}

// The slots 0, 1, .., 63.
fn first_order() -> [u8; 64]
    ensures { Slots result }
{
    std::array::from_fn(|i| i as u8)
}

// Is the plan lower than that of slot j?
fn lower_bytes(plans: &[u8; 4096], j: usize, plan: &[u8]) -> bool
    requires { (j < 64) × (length plan.now ≤ 64) }
    ensures { result ≡ lower plan.now (row (length plan.now) plans.now j) }
{
    plan.cmp(&plans[j * 64..j * 64 + plan.len()]).is_lt()
}

// Does the candidate come before that of slot j? The bytes decide only where the costs are equal.
fn earlier(costs: &[i64; 64], plans: &[u8; 4096], j: usize, cost: i64, plan: &[u8]) -> bool
    requires { (j < 64) × (length plan.now ≤ 64) }
    ensures { result ≡ earlier_than cost plan.now (length plan.now) costs.now plans.now j }
{
    match cost.cmp(&costs[j]) {
        Ordering::Less => true,
        Ordering::Equal => lower_bytes(plans, j, plan),
        Ordering::Greater => false,
    }
}

// How many of the slots that wait cost less: their costs ascend, so half of those in question are left after each test. The test must take any byte, and a
// slot is its own remainder by 64.
fn cheaper(costs: &[i64; 64], waiting: &[u8], cost: i64) -> usize
    requires { Every (λ j. j < 64) waiting.now × Ascending (slot_costs costs.now waiting.now) }
    ensures { (result ≤ length waiting.now) × Cheaper costs.now cost (take result waiting.now) }
{
    waiting.partition_point(|j| costs[*j as usize % 64] < cost)
}

// How many of the slots that wait hold candidates that stay before the new one.
pub fn place(costs: &[i64; 64], plans: &[u8; 4096], waiting: &[u8], cost: i64, plan: &[u8]) -> usize
    requires { Every (λ j. j < 64) waiting.now × Ascending (slot_costs costs.now waiting.now) × (length plan.now ≤ 64) }
    ensures { result ≡ first_yes (earlier_than cost plan.now (length plan.now) costs.now plans.now) waiting.now }
{
    for i in cheaper(costs, waiting, cost)..waiting.len() {
        if earlier(costs, plans, waiting[i] as usize, cost, plan) {
            return i;
        }
    }
    waiting.len()
}

// The plan goes into slot j.
pub fn write_row(plans: &mut [u8; 4096], j: usize, plan: &[u8])
    requires { (j < 64) × (length plan.now ≤ 64) }
    ensures { plans.new ≡ paste plans.old (j * 64) plan.now (length plan.now) }
{
    plans[j * 64..j * 64 + plan.len()].copy_from_slice(plan);
}

// The slot at place n goes to place i, and those from place i on move up by one.
pub fn move_up(order: &mut [u8; 64], i: usize, n: usize)
    requires { (length order.old ≡ 64) × (i ≤ n) × (n < 64) }
    ensures { order.new ≡ moved_up i n order.old }
{
    order[i..n + 1].rotate_right(1);
}

// The place of the slot to fill where n wait: that of the first free slot, or the last of k, whose candidate is not kept.
pub fn spare_place(n: usize, k: usize) -> usize
    requires { (1 ≤ k) × (n ≤ k) }
    ensures { (result < k) × Spare result n k }
{
    n.min(k - 1)
}

// Do k wait, of which the last costs less? Then the candidate would not be kept.
pub fn beyond(costs: &[i64; 64], waiting: &[u8], k: usize, cost: i64) -> bool
    requires { Every (λ j. j < 64) waiting.now × (1 ≤ k) }
    ensures { result ≡ beyond_of (length waiting.now) k cost costs.now waiting.now }
{
    waiting.len() == k && costs[waiting[k - 1] as usize] < cost
}

// The plan of slot j.
pub fn read_row(plans: &[u8; 4096], j: usize, out: &mut [u8])
    requires { (j < 64) × (length out.old ≤ 64) }
    ensures { out.new ≡ row (length out.old) plans.now j }
{
    out.copy_from_slice(&plans[j * 64..j * 64 + out.len()]);
}

// The pool of at most k in which one candidate waits, which splits at state 0, where no action is barred.
pub fn single(k: usize, cost: i64, plan: &[u8]) -> Pool
    requires { (1 ≤ k) × (k ≤ 64) × (length plan.now ≤ 64) }
    ensures { Formed result × (result.most ≡ k) × (entries (length plan.now) result ≡ record { cost = cost; plan = plan.now; split = 0; mask = 0 } ∷ []) }
{
    let order = first_order();
    let slot = order[0] as usize;
    let mut costs: [i64; 64] = [0; 64];
    costs[slot] = cost;
    let mut plans: [u8; 4096] = [0; 4096];
    write_row(&mut plans, slot, plan);
    Pool {
        costs: costs,
        plans: plans,
        splits: [0; 64],
        barred: [0; 64],
        order: order,
        count: 1,
        most: k,
    }
}
