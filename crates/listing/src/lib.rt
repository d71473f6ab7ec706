// The ranked list of a book by value, for every call that works on it: writing, accepting and printing.
#![tactic(auto)]

ghost use Rattle.std.specs.Prelude.{◌≡◌, length};
ghost use Rattle.model.specs.Model.{state_count};
ghost use Rattle.asked.specs.Asked.{Counted};
ghost use Rattle.index.specs.Index.{Indexed};
ghost use Rattle.record.specs.Listed.{Listed};

use book::Sizes;
use record::Listing;

pub fn no_costs() -> [i64; 64]
    ensures { length result ≡ 64 }
{
    [0; 64]
}

pub fn no_plans() -> [u8; 4096]
    ensures { length result ≡ 4096 }
{
    [0; 4096]
}

// Fills the arrays with the first k policies of a book that passes the questions 1 to 14, and their costs; gives how many there are: none exactly if the
// book has none, which is question 28.
pub fn fill(b: &[i32], k: usize, costs: &mut [i64], plans: &mut [u8]) -> usize
    requires { Counted b.now k × (length costs.old ≡ 64) × (length plans.old ≡ 4096) }
    ensures { Listed b.now k (record { n = result; s = state_count b.now; costs = costs.new; plans = plans.new }) }
{
    engine::list(b, k, costs, plans)
}

// The same by the index of the book.
pub fn fill_by(
    b: &[i32],
    z: Sizes,
    x: &[usize; 192],
    k: usize,
    costs: &mut [i64],
    plans: &mut [u8],
) -> usize
    requires { Counted b.now k × Indexed b.now z x.now × (length costs.old ≡ 64) × (length plans.old ≡ 4096) }
    ensures { Listed b.now k (record { n = result; s = state_count b.now; costs = costs.new; plans = plans.new }) }
{
    engine::list_by(b, z, x, k, costs, plans)
}

// The list by value. Inlined, it is made where the caller keeps it, so that no array is copied.
#[inline(always)]
pub fn list(b: &[i32], k: usize) -> Listing
    requires { Counted b.now k }
    ensures { Listed b.now k result }
{
    let z = book::read_sizes(b);
    let mut list = Listing {
        n: 0,
        s: z.s,
        costs: [0; 64],
        plans: [0; 4096],
    };
    list.n = fill(b, k, &mut list.costs, &mut list.plans);
    list
}
