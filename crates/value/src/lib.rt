// Valuing one policy: the questions 1 to 13 and 17, and its exact cost over D^H.
#![tactic(auto)]

ghost use Rattle.std.specs.Prelude.{◌≡◌, IfOk};
ghost use Rattle.model.specs.Calls.{value_number, value_cost};
ghost use Rattle.refusal.specs.Refusal.{number_in};

use refusal::Refusal;

// Valuing a plan of a book, for any two slices: its cost.
pub fn value(b: &[i32], plan: &[u8]) -> Result<i64, Refusal>
    ensures number { number_in result ≡ value_number b.now plan.now }
    ensures cost { IfOk result (λ c. c ≡ value_cost b.now plan.now) }
{
    check_book::check(b)?;
    let z = lines::sizes(b);
    policy::judge(b, z, plan).ok_or(Refusal::Plan)
}
