// The reach weights of a policy of a checked book. Next states are later states, so one pass over the states in order computes all of them.
#![tactic(auto)]

ghost use Rattle.std.specs.Prelude.{◌≡◌, true, ◌<◌, length};
ghost use Rattle.model.specs.Model.{state_count, action_count, action};
ghost use Rattle.model.specs.Policy.{is_policy};
ghost use Rattle.index.specs.Index.{Indexed};
ghost use Rattle.lines.specs.Lines.{LinesOf};
ghost use Rattle.splits.specs.Reach.{spread};
ghost use Rattle.reach.specs.Weights.{weight_at, first_weights, Holds, Room, WeightsOf};

use book::Sizes;
use lines::Lines;

// Weight 1 at state 0, where every path begins.
fn first_weights(w: &mut [usize; 64])
    ensures { Holds w.new first_weights }
{
    *w = [0; 64];
    w[0] = 1;
}

// Adds y times its weight to the next state of each transition of action c of state p, whose lines are a.
pub fn spread_lines(b: &[i32], a: Lines, p: usize, c: usize, y: usize, w: &mut [usize; 64])
    requires { LinesOf b.now p c a × (length w.old ≡ 64) × Room y (action b.now p c).transitions w.old }
    ensures { Holds w.new (spread y (action b.now p c).transitions (weight_at w.old)) }
{
    for i in 0..a.r {
        let q = lines::next(b, a, p, c, i);
        let weight = lines::weight(b, a, p, c, i);
        w[q] = w[q] + y * weight;
    }
}

// The same of the action by its number.
fn spread_action(
    b: &[i32],
    z: Sizes,
    x: &[usize; 192],
    p: usize,
    c: usize,
    y: usize,
    w: &mut [usize; 64],
)
    requires { Indexed b.now z x.now × (p < state_count b.now) × (c < action_count b.now p) × (length w.old ≡ 64) × Room y (action b.now p c).transitions w.old }
    ensures { Holds w.new (spread y (action b.now p c).transitions (weight_at w.old)) }
{
    let a = lines::of_action(b, z, x, p, c);
    spread_lines(b, a, p, c, y, w);
}

// Fills w with the reach weights of the policy, at the number of each state.
pub fn reach_weights(b: &[i32], z: Sizes, x: &[usize; 192], plan: &[u8], w: &mut [usize; 64])
    requires { Indexed b.now z x.now × (is_policy b.now plan.now ≡ true) }
    ensures { WeightsOf b.now plan.now w.new }
{
    first_weights(w);
    for p in 0..z.s {
        let c = plan[p] as usize;
        if c != 255 {
            let y = w[p];
            spread_action(b, z, x, p, c, y, w);
        }
    }
}
