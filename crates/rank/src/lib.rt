// The K best policies of a book: the questions 1 to 14, 28, 15 and 16, and the list in the two lent slices.
#![tactic(auto)]

ghost use Rattle.std.specs.Prelude.{◌≡◌, cond, IfOk};
ghost use Rattle.model.specs.Questions.{book_number};
ghost use Rattle.model.specs.Policy.{has_policy};
ghost use Rattle.asked.specs.Asked.{Counted};
ghost use Rattle.rank.specs.Short.{short_number};
ghost use Rattle.model.specs.Calls.{room_of, rank_number, rank_count, rank_costs, rank_plans};
ghost use Rattle.refusal.specs.Refusal.{number_of, number_in};

use refusal::Refusal;

// 28 where the book has no policy, else a question that comes after it.
fn after_28(b: &[i32], later: Refusal) -> Refusal
    requires { book_number b.now ≡ 0 }
    ensures { number_of result ≡ cond (has_policy b.now) (number_of later) 28 }
{
    if feasible::has_policy(b) {
        return later;
    }
    Refusal::NoPlan
}

// Are the slices, of c costs and p bytes, long enough for k policies? The questions 1 to 14 are passed. Only a call that is refused here asks 28: for any
// other the list tells it.
fn short_number(b: &[i32], k: usize, c: usize, p: usize) -> Result<(), Refusal>
    requires { Counted b.now k }
    ensures { number_in result ≡ short_number b.now (record { k = k; costs = c; plans = p }) }
{
    if c < k {
        return Err(after_28(b, Refusal::CostRoom));
    }
    let z = book::read_sizes(b);
    if p < k * z.s {
        return Err(after_28(b, Refusal::PlanRoom));
    }
    Ok(())
}

// The list for any book, count and slices: how many policies it has. A refusal writes nothing.
pub fn rank(b: &[i32], k: usize, costs: &mut [i64], plans: &mut [u8]) -> Result<usize, Refusal>
    ensures number { number_in result ≡ rank_number b.now (room_of k costs.old plans.old) }
    ensures count { IfOk result (λ n. n ≡ rank_count b.now (room_of k costs.old plans.old)) }
    ensures costs { costs.new ≡ rank_costs b.now k costs.old plans.old }
    ensures plans { plans.new ≡ rank_plans b.now k costs.old plans.old }
{
    asked::counted_number(b, k)?;
    short_number(b, k, costs.len(), plans.len())?;
    let n = engine::list(b, k, costs, plans);
    if n == 0 {
        return Err(Refusal::NoPlan);
    }
    Ok(n)
}
