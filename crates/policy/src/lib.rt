// Question 17 and the cost of a policy, by one pass over the states in order. Next states are later states, so what the pass has for a state when it
// comes there is its reach weight: the state is reached if that is not 0, and then adds its action's cost times the weight.
#![tactic(auto)]

ghost use Rattle.std.specs.Prelude.{◌≡◌, ◌<◌, IfSome, is_some};
ghost use Rattle.model.specs.Lists.{is_in};
ghost use Rattle.model.specs.Model.{state_count, action_count, options};
ghost use Rattle.model.specs.Policy.{allowed, is_policy};
ghost use Rattle.model.specs.Path.{policy_cost};
ghost use Rattle.index.specs.Index.{Checked};
ghost use Rattle.lines.specs.Lines.{word_of};
ghost use Rattle.reach.specs.Weights.{first_weights, Holds};

use book::{Sizes, Stage};

// Weight 1 at state 0, where every path begins.
fn first_weights() -> [usize; 64]
    ensures { Holds result first_weights }
{
    let mut w = [0; 64];
    w[0] = 1;
    w
}

// Is byte c allowed at state p: one of its open actions if the state is reached, else 255? An action c of p begins at word `at`.
fn byte_allowed(b: &[i32], z: Sizes, p: usize, reached: bool, c: usize, at: usize) -> bool
    requires { Checked b.now z × (p < state_count b.now) × (c < action_count b.now p → at ≡ word_of b.now p c) }
    ensures { result ≡ is_in c (allowed (options b.now p) reached) }
{
    if !reached {
        return c == 255;
    }
    let n = index::count(b, z, p);
    if n <= c {
        return false;
    }
    !lines::closed_at(b, z, p, c, at)
}

// 17, and the cost: what the slice costs if it is a policy of a checked book.
#[tactic(auto, using(crate::proofs::Pass::wrong_length))]
pub fn judge(b: &[i32], z: Sizes, plan: &[u8]) -> Option<i64>
    requires { Checked b.now z }
    ensures is { is_some result ≡ is_policy b.now plan.now }
    ensures cost { IfSome result (λ c. c ≡ policy_cost b.now plan.now) }
{
    if plan.len() != z.s {
        return None;
    }
    let mut w = first_weights();
    let mut t = Stage { n: 0, end: 1 };
    let mut at = z.columns;
    let mut sum: i64 = 0;
    for p in 0..z.s {
        t = book::stage_for(b, z, t, p);
        let c = plan[p] as usize;
        let f = lines::find(b, z, t, p, at, c);
        let y = w[p];
        let reached = y != 0;
        if !byte_allowed(b, z, p, reached, c, f.at) {
            return None;
        }
        if reached {
            let a = lines::at_word(b, z, p, c, f.at, t.end);
            let unit = costs::unit_by(b, z, t, p);
            sum = costs::mul_add(sum, y * unit, lines::cost(b, a, p, c));
            reach::spread_lines(b, a, p, c, y, &mut w);
        }
        at = f.after;
    }
    Some(sum)
}
