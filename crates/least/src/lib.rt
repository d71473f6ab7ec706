// The least cost of a book: the questions 1 to 13 and 28, and the cost of its first policy over D^H.
#![tactic(auto)]

ghost use Rattle.std.specs.Prelude.{◌≡◌, IfOk};
ghost use Rattle.model.specs.Calls.{least_number, least_cost};
ghost use Rattle.refusal.specs.Refusal.{number_in};

use refusal::Refusal;
use sets::Set;

// The least cost of a book, for any slice.
pub fn least(b: &[i32]) -> Result<i64, Refusal>
    ensures number { number_in result ≡ least_number b.now }
    ensures cost { IfOk result (λ c. c ≡ least_cost b.now) }
{
    check_book::check(b)?;
    let z = book::read_sizes(b);
    let x = index::index(b, z);
    let m = feasible::find_barred(b, z, &x);
    if m.dead.has(0) {
        return Err(Refusal::NoPlan);
    }
    let mut q = table::zero_rows();
    let mut v = table::zeros();
    table::fill_table(b, z, &x, &m.off, &mut q, &mut v);
    Ok(v[0])
}
