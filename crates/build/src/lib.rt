// The bytes of a policy that keeps to another's bytes before one state, takes a given action there, and first best actions after it.
#![tactic(auto)]

ghost use Rattle.std.specs.Prelude.{◌≡◌, [], ◌∷◌, ◌+◌, ◌<◌, ◌≤◌, length};
ghost use Rattle.model.specs.Model.{state_count, action};
ghost use Rattle.model.specs.Questions.{book_number};
ghost use Rattle.model.specs.Lists.{up_from};
ghost use Rattle.model.specs.Recursion.{best_of};
ghost use Rattle.accepted.specs.Options.{Feasible, Alive};
ghost use Rattle.index.specs.Index.{Checked};
ghost use Rattle.sets.specs.Sets.{with, free};
ghost use Rattle.feasible.specs.Barred.{BarredOf};
ghost use Rattle.table.specs.Table.{row_of};
ghost use Rattle.nexts.specs.Nexts.{NextsOf};
ghost use Rattle.build.specs.Best.{RowsOf, BestOf, SecondOf};
ghost use Rattle.build.specs.Walk.{walk_by, chosen, ActionOrNone, Usable, Walked, Own, Passed};

use book::Sizes;
use sets::Set;

// The first best action of state p of the first n that are neither in the set `off` nor c, the first best of those that are not in the set; 255 where
// there is none.
fn second_best(q: &[i64; 512], p: usize, n: usize, off: u8, c: usize) -> usize
    requires { (p < 64) × (n ≤ 8) × (c ≡ best_of (row_of q.now p) (free off (up_from 0 n))) }
    ensures { result ≡ best_of (row_of q.now p) (free (with 0 c) (free off (up_from 0 n))) }
{
    // 255 and no Option: best_of, which the contracts name, is 255 of no action
    if c == 255 {
        return 255;
    }
    let own = off.with(c);
    table::best_action(q, p, n, own)
}

// Fills `best`, by the table q of the costs of the actions, for each state p: at p its first best action, at 64 + p the first best of its others, 255 where
// there is none, and at 128 + p the set of its actions that no policy can take, as `off` has it. A list of one policy needs no second best actions: they
// are left out where k is 1. Three parts of one array: the definitions BestTo and SecondTo have it so. It has 255 for none as best_of does, and as the
// bytes of a plan, whose format is given.
pub fn best_actions(
    b: &[i32],
    z: Sizes,
    q: &[i64; 512],
    off: &[u8; 64],
    k: usize,
    best: &mut [u8; 192],
)
    requires { Checked b.now z × RowsOf b.now q.now × BarredOf b.now off.now × (length best.old ≡ 192) }
    ensures { BestOf b.now best.new × (1 < k → SecondOf b.now best.new) }
{
    for p in 0..z.s {
        let n = index::count(b, z, p);
        let mask = off[p];
        let c = table::best_action(q, p, n, mask);
        best[p] = c as u8;
        best[128 + p] = mask;
        if 1 < k {
            let d = second_best(q, p, n, mask, c);
            best[64 + p] = d as u8;
        }
    }
}

// The states that are reached once those of the byte of `plan` at state s are among them.
pub fn pass_state(b: &[i32], nx: &[u64; 512], plan: &[u8], s: usize, reach: u64) -> u64
    requires { (book_number b.now ≡ 0) × NextsOf b.now nx.now × (s < state_count b.now) × ActionOrNone b.now plan.now s × Passed b.now plan.now s reach }
    ensures { Passed b.now plan.now (s + 1) result }
{
    let a = plan[s] as usize;
    // 255: a plan's byte for a state that it does not reach
    if a == 255 {
        return reach;
    }
    nx[8 * s + a].union(reach)
}

// The states that the bytes of `plan` before state r reach.
pub fn reached_before(b: &[i32], nx: &[u64; 512], plan: &[u8], r: usize) -> u64
    requires { (book_number b.now ≡ 0) × NextsOf b.now nx.now × (r ≤ state_count b.now) × Alive b.now 0 × Own b.now plan.now × Usable b.now plan.now r }
    ensures { Passed b.now plan.now r result }
{
    let mut reach: u64 = 1;
    for s in 0..r {
        reach = pass_state(b, nx, plan, s, reach);
    }
    reach
}

// The bytes of the policy that has those of `plan` before state r, takes action c at r and first best actions after it. `from` is the set of the states
// that the bytes before r reach.
pub fn build(
    b: &[i32],
    nx: &[u64; 512],
    best: &[u8; 192],
    plan: &[u8],
    r: usize,
    c: usize,
    from: u64,
    out: &mut [u8],
)
    requires { (book_number b.now ≡ 0) × NextsOf b.now nx.now × BestOf b.now best.now × Usable b.now plan.now r × (r < state_count b.now) × Feasible b.now r c × Walked b.now plan.now r from × (length out.old ≡ state_count b.now) }
    ensures { out.new ≡ walk_by (action b.now) (chosen b.now plan.now r c) (state_count b.now) 0 (0 ∷ []) }
{
    out[..r].copy_from_slice(&plan[..r]);
    let mut reach = from;
    for s in r..out.len() {
        if reach.has(s) {
            let a = if s == r { c } else { best[s] as usize };
            out[s] = a as u8;
            reach = nx[8 * s + a].union(reach);
        } else {
            // a plan's byte for a state that it does not reach
            out[s] = 255;
        }
    }
}
