// Request 2.8, "Where is my plan?": the rank of a policy in the list of a book and K, or why it is not listed.
#![tactic(auto)]

ghost use Rattle.std.specs.Prelude.{◌≡◌, ◌+◌, ◌*◌, ◌≤◌, ◌<◌, nat_abs, length, take, drop, IfOk, MatchOption};
ghost use Rattle.model.specs.Standing.{place_in, beside_last, answer_number, answer_value, standing};
ghost use Rattle.model.specs.Calls.{find_number};
ghost use Rattle.record.specs.Parts.{parts};
ghost use Rattle.find.specs.Says.{says};
ghost use Rattle.refusal.specs.Refusal.{number_in};

use refusal::Refusal;

// Which of the three answers is true of a plan.
#[derive(Clone, Copy, Debug, PartialEq, Eq)]
pub enum Standing {
    // it is this rank of the list, from 1
    Rank(u8),
    // it costs more than the last listed, by this much over D^H
    CostsMore(i64),
    // it costs the same, and at this state, the first where they differ, takes the higher action
    TakesHigher(u8),
}

impl Standing {
    ghost use Rattle.find.specs.Says.{says};

    // Which of the three, from 1.
    pub fn number(self) -> u32
        ensures { result ≡ answer_number (says self) }
    {
        match self {
            Standing::Rank(_) => 1,
            Standing::CostsMore(_) => 2,
            Standing::TakesHigher(_) => 3,
        }
    }

    // The rank, the amount or the state.
    pub fn value(self) -> i64
        ensures { result ≡ answer_value (says self) }
    {
        match self {
            Standing::Rank(j) => i64::from(j),
            Standing::CostsMore(z) => z,
            Standing::TakesHigher(p) => i64::from(p),
        }
    }
}

// Ranks are counted from 1.
const FIRST_RANK: u8 = 1;

// How many of the n listed policies stand above a plan, if it is listed.
fn place_in(plans: &[u8], n: usize, plan: &[u8]) -> Option<usize>
    requires { n * length plan.now ≤ length plans.now }
    ensures { MatchOption result (place_in (parts plans.now (length plan.now) 0 n) plan.now ≡ n) (λ j. (j ≡ place_in (parts plans.now (length plan.now) 0 n) plan.now) × (j < n)) }
{
    let s = plan.len();
    (0..n).find(|i| bytes_io::same_bytes(plans, *i * s, plan, s))
}

// Of a policy that is not listed, beside the last one that is: its bytes begin at index `at`, and it costs `last`.
fn beside_last(plans: &[u8], at: usize, last: i64, plan: &[u8], cost: i64) -> Standing
    requires { (at + length plan.now ≤ length plans.now) × (length plan.now ≤ 64) × (nat_abs last ≤ 4000000000000000000) × (nat_abs cost ≤ 4000000000000000000) }
    ensures { says result ≡ beside_last (take (length plan.now) (drop at plans.now)) last plan.now cost }
{
    if last < cost {
        return Standing::CostsMore(cost - last);
    }
    Standing::TakesHigher(compare::first_difference(plans, at, plan, plan.len()) as u8)
}

// Where a plan stands, for any book, count and bytes.
pub fn find(b: &[i32], k: usize, plan: &[u8]) -> Result<Standing, Refusal>
    ensures number { number_in result ≡ find_number b.now k plan.now }
    ensures answer { IfOk result (λ a. says a ≡ standing b.now k plan.now) }
{
    asked::counted_number(b, k)?;
    let mut costs = [0; 64];
    let mut plans = [0; 4096];
    let n = listing::fill(b, k, &mut costs, &mut plans);
    if n == 0 {
        return Err(Refusal::NoPlan);
    }
    let z = lines::sizes(b);
    let cost = policy::judge(b, z, plan).ok_or(Refusal::Plan)?;
    if let Some(j) = place_in(&plans, n, plan) {
        return Ok(Standing::Rank(j as u8 + FIRST_RANK));
    }
    Ok(beside_last(&plans, (n - 1) * plan.len(), costs[n - 1], plan, cost))
}
