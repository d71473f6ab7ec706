// All policies of a checked book in the order of their bytes: the lowest, the one after each, and how many there are. The next policy is made from the one
// before it and the lines of the book. `off` has the actions of each state that no policy can take, so that every step gives a policy.
#![tactic(auto)]

ghost use Rattle.std.specs.Prelude.{◌≡◌, true, ◌⊎◌, ◌*◌, ◌-◌, ◌≤◌, ◌<◌, length};
ghost use Rattle.model.specs.Lists.{up_from};
ghost use Rattle.model.specs.Model.{state_count};
ghost use Rattle.model.specs.Policy.{policies, has_policy};
ghost use Rattle.model.specs.Recursion.{feasible};
ghost use Rattle.accepted.specs.Options.{Feasible};
ghost use Rattle.index.specs.Index.{Checked, Indexed};
ghost use Rattle.sets.specs.Sets.{free};
ghost use Rattle.feasible.specs.Barred.{BarredOf};
ghost use Rattle.next_policy.specs.Next.{first_of};
ghost use Rattle.enumerate.specs.Ways.{ways_at};
ghost use Rattle.enumerate.specs.Steps.{HigherIs, RaiseIs, Lowest, Onward, ReachedBefore, Filled, Stands, IsFirst, Followed, CountIs};

use book::Sizes;
use sets::Set;

// The first of the actions from `from` to n - 1 that is not in the set; 255 where there is none.
fn first_free(mask: u8, from: usize, n: usize) -> usize
    requires { n ≤ 8 }
    ensures { result ≡ first_of (free mask (up_from from (n - from))) }
{
    for c in from..n {
        if !mask.has(c) {
            return c;
        }
    }
    255
}

// The first action of state p above its byte that a policy can take; 255 where there is none.
fn higher_at(b: &[i32], z: Sizes, off: &[u8; 64], plan: &[u8], p: usize) -> usize
    requires { Checked b.now z × BarredOf b.now off.now × (length plan.now ≡ state_count b.now) × (p < state_count b.now) }
    ensures { HigherIs b.now plan.now p result }
{
    let n = index::count(b, z, p);
    let c = plan[p] as usize;
    first_free(off[p], c + 1, n)
}

// A state and an action of it.
#[derive(Clone, Copy)]
pub struct Raise {
    pub state: usize,
    pub action: usize,
}

// The last state at which a policy can take a higher action, and the first such action, if there is one.
fn raise_of(b: &[i32], z: Sizes, off: &[u8; 64], plan: &[u8]) -> Option<Raise>
    requires { Checked b.now z × BarredOf b.now off.now × (length plan.now ≡ state_count b.now) }
    ensures { RaiseIs b.now plan.now result }
{
    let s = z.s;
    for p in (0..s).rev() {
        let c = higher_at(b, z, off, plan, p);
        if c != 255 {
            return Some(Raise {
                state: p,
                action: c,
            });
        }
    }
    None
}

// The lowest action of state p that a policy can take, if the state is among those known to be reached, else 255.
fn lowest_byte(b: &[i32], z: Sizes, off: &[u8; 64], p: usize, known: u64) -> usize
    requires { Checked b.now z × BarredOf b.now off.now × (p < state_count b.now) }
    ensures { Lowest b.now p known result }
{
    if !known.has(p) {
        return 255;
    }
    let n = index::count(b, z, p);
    first_free(off[p], 0, n)
}

// The states known to be reached after byte c at state p: the next states of its action are among them. 255 is no action.
fn onward(b: &[i32], z: Sizes, x: &[usize; 192], p: usize, c: usize, known: u64) -> u64
    requires { Indexed b.now z x.now × (p < state_count b.now) × ((c ≡ 255) ⊎ Feasible b.now p c) }
    ensures { Onward b.now p c known result }
{
    if c == 255 {
        return known;
    }
    let a = lines::of_action(b, z, x, p, c);
    let more = nexts::next_set(b, a, p, c);
    more.union(known)
}

// Fills in the lowest actions of the states from `from` on, where the bytes before it reach the states of `set`. At p of `reach` it leaves the set of the
// states that the bytes before state p reach.
fn fill(
    b: &[i32],
    z: Sizes,
    x: &[usize; 192],
    off: &[u8; 64],
    from: usize,
    set: u64,
    plan: &mut [u8],
    reach: &mut [u64; 64],
)
    requires { Indexed b.now z x.now × BarredOf b.now off.now × (from ≤ state_count b.now) × (length plan.old ≡ state_count b.now) × (length reach.old ≡ 64) × ReachedBefore b.now plan.old from set }
    ensures { Filled b.now from plan.old plan.new reach.old reach.new }
{
    let s = z.s;
    let mut known = set;
    for p in from..s {
        reach[p] = known;
        let c = lowest_byte(b, z, off, p, known);
        plan[p] = c as u8;
        known = onward(b, z, x, p, c, known);
    }
}

// The lowest policy.
pub fn first(
    b: &[i32],
    z: Sizes,
    x: &[usize; 192],
    off: &[u8; 64],
    plan: &mut [u8],
    reach: &mut [u64; 64],
)
    requires { Indexed b.now z x.now × BarredOf b.now off.now × (has_policy b.now ≡ true) × (length plan.old ≡ state_count b.now) × (length reach.old ≡ 64) }
    ensures { IsFirst b.now plan.new reach.new }
{
    fill(b, z, x, off, 0, 1, plan, reach);
}

// The policy after the one in `plan`, in its place; false where it is the last.
pub fn next(
    b: &[i32],
    z: Sizes,
    x: &[usize; 192],
    off: &[u8; 64],
    plan: &mut [u8],
    reach: &mut [u64; 64],
) -> bool
    requires { Indexed b.now z x.now × BarredOf b.now off.now × Stands b.now plan.old reach.old }
    ensures { Followed b.now plan.old result plan.new reach.new }
{
    let Some(up) = raise_of(b, z, off, plan) else {
        return false;
    };
    let p = up.state;
    let c = up.action;
    plan[p] = c as u8;
    let known = reach[p];
    let set = onward(b, z, x, p, c, known);
    fill(b, z, x, off, p + 1, set, plan, reach);
    true
}

// How many of the first n actions are not in the set.
fn count_free(mask: u8, n: usize) -> usize
    requires { n ≤ 8 }
    ensures { result ≡ length (free mask (up_from 0 n)) }
{
    let mut found: usize = 0;
    for c in 0..n {
        if !mask.has(c) {
            found = found + 1;
        }
    }
    found
}

// The product with the actions of state p that a policy can take, where there are any.
fn times(b: &[i32], z: Sizes, off: &[u8; 64], p: usize, product: usize) -> usize
    requires { Checked b.now z × BarredOf b.now off.now × (p < state_count b.now) × (product ≤ 65535) }
    ensures { result ≡ product * ways_at (feasible b.now p) }
{
    let n = index::count(b, z, p);
    let c = count_free(off[p], n);
    if c == 0 {
        return product;
    }
    product * c
}

// Has the book at most `most` policies by the product of the numbers of actions that a policy can take? Where it has not, that says nothing: a policy takes
// actions at the states that it reaches alone.
pub fn few_at_sight(b: &[i32], z: Sizes, off: &[u8; 64], most: usize) -> bool
    requires { Checked b.now z × BarredOf b.now off.now × (most ≤ 65535) × (1 ≤ most) }
    ensures { result ≡ true → length (policies b.now) ≤ most }
{
    let s = z.s;
    let mut product: usize = 1;
    for p in 0..s {
        product = times(b, z, off, p, product);
        if most < product {
            return false;
        }
    }
    true
}

// How many policies the book has; most + 1 where it has more than `most`. `plan` and `reach` are written over.
pub fn count_to(
    b: &[i32],
    z: Sizes,
    x: &[usize; 192],
    off: &[u8; 64],
    most: usize,
    plan: &mut [u8],
    reach: &mut [u64; 64],
) -> usize
    requires { Indexed b.now z x.now × BarredOf b.now off.now × (has_policy b.now ≡ true) × (length plan.old ≡ state_count b.now) × (length reach.old ≡ 64) × (most ≤ 65535) }
    ensures { CountIs b.now most result }
{
    first(b, z, x, off, plan, reach);
    let mut n: usize = 1;
    while n <= most {
        if !next(b, z, x, off, plan, reach) {
            return n;
        }
        n = n + 1;
    }
    n
}
