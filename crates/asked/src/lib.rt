// The questions 1 to 14 and 28, which ranking, writing and accepting share.
#![tactic(auto)]

ghost use Rattle.std.specs.Prelude.{◌≡◌};
ghost use Rattle.model.specs.Record.{asked_number};
ghost use Rattle.asked.specs.Asked.{counted_number};
ghost use Rattle.refusal.specs.Refusal.{number_in};

use refusal::Refusal;

// The questions 1 to 14. A call that lists the policies itself learns by that whether there is one.
#[tactic(auto, using(crate::proofs::Counts::too_low, crate::proofs::Counts::too_high))]
pub fn counted_number(b: &[i32], k: usize) -> Result<(), Refusal>
    ensures { number_in result ≡ counted_number b.now k }
{
    check_book::check(b)?;
    if k < 1 {
        return Err(Refusal::Count);
    }
    if 64 < k {
        return Err(Refusal::Count);
    }
    Ok(())
}

// The questions 1 to 14 and 28.
pub fn asked_number(b: &[i32], k: usize) -> Result<(), Refusal>
    ensures { number_in result ≡ asked_number b.now k }
{
    counted_number(b, k)?;
    if !feasible::has_policy(b) {
        return Err(Refusal::NoPlan);
    }
    Ok(())
}
