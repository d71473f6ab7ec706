// The first k of the policies that are handed in, at the front of two lent slices: their costs, and their bytes one after the other. They are handed in in
// the order of their bytes, so one that costs as much as others goes after them, and no byte is compared.
#![tactic(auto)]

ghost use Rattle.std.specs.Prelude.{◌≡◌, [], ◌∷◌, ◌+◌, ◌*◌, ◌≤◌, ◌<◌, length, take};
ghost use Rattle.std.specs.Int.Signed.{lt_z};
ghost use Rattle.model.specs.Lists.{first_where};
ghost use Rattle.best_kept.specs.Placed.{Ascends, opened, Placed};

// How many of the first n costs are at most `cost`. They ascend, and most policies cost at least as much as the last of them, so it looks from that one on.
fn place(costs: &[i64], n: usize, cost: i64) -> usize
    requires { (n ≤ 64) × (n ≤ length costs.now) × Ascends (take n costs.now) }
    ensures { result ≡ first_where (lt_z cost) (take n costs.now) }
{
    if 0 < n && costs[n - 1] <= cost {
        return n;
    }
    costs[..n].partition_point(|x| *x <= cost)
}

// The new elements go to the places from `at` on, and those from there to place `to` move up by as many; those that would stand after them are gone.
fn open<T: Copy>(row: &mut [T], at: usize, to: usize, new: &[T])
    requires { (at ≤ to) × (to + length new.now ≤ length row.old) }
    ensures { row.new ≡ opened at to new.now row.old }
{
    let end = at + new.len();
    row.copy_within(at..to, end);
    row[at..end].copy_from_slice(new);
}

// The policy goes in among n, of which at most k are kept; gives how many there are then.
pub fn keep(
    costs: &mut [i64],
    plans: &mut [u8],
    n: usize,
    k: usize,
    cost: i64,
    plan: &[u8],
) -> usize
    requires { (n ≤ k) × (1 ≤ k) × (k ≤ 64) × (k ≤ length costs.old) × (k * length plan.now ≤ length plans.old) × (1 ≤ length plan.now) × Ascends (take n costs.old) }
    ensures { Placed n k cost plan.now result costs.old costs.new plans.old plans.new }
{
    let i = place(costs, n, cost);
    if k <= i {
        return n;
    }
    // the place of the last then: the last of n is gone where they are k
    let last = n.min(k - 1);
    let s = plan.len();
    open(costs, i, last, &[cost]);
    open(plans, i * s, last * s, plan);
    last + 1
}
