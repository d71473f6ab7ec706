// Costs-to-go of the states of a checked book: one pass over its lines, from the last state to the first.
#![tactic(auto)]

ghost use Rattle.std.specs.Prelude.{◌≡◌, ◌+◌, ◌*◌, ◌^◌, ◌<◌, ◌≤◌, pos, nat_abs, ◌+ℤ◌, ◌*ℤ◌};
ghost use Rattle.model.specs.Model.{state_count, action, scale, togo};
ghost use Rattle.model.specs.Recursion.{expected, action_cost};
ghost use Rattle.accepted.specs.Options.{Option};
ghost use Rattle.book.specs.Read.{StageFor};
ghost use Rattle.index.specs.Index.{Checked, Indexed};
ghost use Rattle.lines.specs.Lines.{LinesOf};
ghost use Rattle.costs.specs.Terms.{abs_expected, value_at, Bounded};

use book::{Sizes, Stage};
use lines::Lines;

// One term more of a sum of weighted costs.
pub fn mul_add(acc: i64, w: usize, v: i64) -> i64
    requires { (nat_abs acc + w * nat_abs v ≤ 4000000000000000000) × (w ≤ 10000000000000000) }
    ensures { result ≡ acc +ℤ pos w *ℤ v }
{
    acc + (w as i64) * v
}

// `start` and the expected cost-to-go after action c of state p.
fn expect(b: &[i32], a: Lines, p: usize, c: usize, v: &[i64; 64], start: i64) -> i64
    requires { LinesOf b.now p c a × (nat_abs start + abs_expected (value_at v.now) (action b.now p c).transitions ≤ 4000000000000000000) }
    ensures { result ≡ start +ℤ expected (value_at v.now) (action b.now p c).transitions }
{
    let mut acc = start;
    for i in 0..a.r {
        let next = lines::next(b, a, p, c, i);
        let w = lines::weight(b, a, p, c, i);
        acc = mul_add(acc, w, v[next]);
    }
    acc
}

// What a cost at state p stands against: D to the stages still to come.
pub fn unit(b: &[i32], z: Sizes, x: &[usize; 192], p: usize) -> usize
    requires { Indexed b.now z x.now × (p < state_count b.now) }
    ensures { result ≡ scale b.now ^ togo b.now p }
{
    let m = x[128 + p];
    power::raised(z.d, m) as usize
}

// The same by the stage t of p: for a pass that needs no index.
pub fn unit_by(b: &[i32], z: Sizes, t: Stage, p: usize) -> usize
    requires { Checked b.now z × StageFor b.now p t }
    ensures { result ≡ scale b.now ^ togo b.now p }
{
    power::raised(z.d, z.h - t.n) as usize
}

// The cost of taking action c of state p, which is open, where v has the costs-to-go of its next states. The caller has the unit of p for all its actions.
pub fn action_cost(b: &[i32], a: Lines, p: usize, c: usize, unit: usize, v: &[i64; 64]) -> i64
    requires { LinesOf b.now p c a × (unit ≡ scale b.now ^ togo b.now p) × Option b.now p c × Bounded b.now p c v.now }
    ensures { result ≡ action_cost (scale b.now) (togo b.now p) (value_at v.now) (action b.now p c) }
{
    let start = mul_add(0, unit, lines::cost(b, a, p, c));
    expect(b, a, p, c, v, start)
}
