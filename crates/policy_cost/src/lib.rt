// The cost of a policy by the index of its book: equation (4), one pass over the states that it reaches, from the last to the first. For whoever values many
// policies of one book; they are known to be policies.
#![tactic(auto)]

ghost use Rattle.std.specs.Prelude.{◌≡◌, ◌<◌, T};
ghost use Rattle.model.specs.Model.{scale, togo, state_count, action};
ghost use Rattle.model.specs.Policy.{is_policy};
ghost use Rattle.model.specs.Path.{policy_cost};
ghost use Rattle.model.specs.Recursion.{action_cost};
ghost use Rattle.accepted.specs.Options.{Option};
ghost use Rattle.index.specs.Index.{Indexed};
ghost use Rattle.costs.specs.Terms.{value_at, Bounded};

use book::Sizes;

// The cost of taking action c of state p, where v has the costs-to-go of its next states.
fn state_cost(b: &[i32], z: Sizes, x: &[usize; 192], p: usize, c: usize, v: &[i64; 64]) -> i64
    requires { Indexed b.now z x.now × (p < state_count b.now) × Option b.now p c × Bounded b.now p c v.now }
    ensures { result ≡ action_cost (scale b.now) (togo b.now p) (value_at v.now) (action b.now p c) }
{
    let a = lines::of_action(b, z, x, p, c);
    let unit = costs::unit(b, z, x, p);
    costs::action_cost(b, a, p, c, unit, v)
}

// What the policy costs.
pub fn cost(b: &[i32], z: Sizes, x: &[usize; 192], plan: &[u8]) -> i64
    requires { Indexed b.now z x.now × T (is_policy b.now plan.now) }
    ensures { result ≡ policy_cost b.now plan.now }
{
    let mut v = [0i64; 64];
    for p in (0..z.s).rev() {
        let c = plan[p] as usize;
        // 255: a plan's byte for a state that it does not reach
        if c != 255 {
            v[p] = state_cost(b, z, x, p, c, &v);
        }
    }
    v[0]
}
