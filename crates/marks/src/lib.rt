// Request 2.10: question 29, and the most marked actions that a sample path of a policy takes (document 01: marked choices of a day of a plan), by one
// pass over the states from the last to the first.
#![tactic(auto)]

ghost use Rattle.std.specs.Prelude.{◌≡◌, ◌+◌, ◌≤◌, length, take, drop};
ghost use Rattle.model.specs.Model.{state_count, action};
ghost use Rattle.model.specs.Limit.{limit_of, first_mark, mark_of, limit_allowed};
ghost use Rattle.path_sums.specs.Most.{most_next};
ghost use Rattle.path_sums.specs.Books.{most_over};
ghost use Rattle.index.specs.Index.{Checked, Indexed};
ghost use Rattle.lines.specs.Lines.{LinesOf};
ghost use Rattle.marks.specs.Marks.{number_at, MarksOf};

use book::Sizes;
use lines::Lines;

// A mark is 1 or 0.
const HIGHEST_MARK: u8 = 1;

// "m from 0 to 9"
const HIGHEST_LIMIT: usize = 9;

// How many actions the states of a checked book have.
fn action_total(b: &[i32], z: Sizes) -> usize
    requires { Checked b.now z }
    ensures { result ≡ first_mark b.now (state_count b.now) }
{
    let mut n = 0;
    for p in 0..z.s {
        n += index::count(b, z, p);
    }
    n
}

// 29: are there as many marks as actions of a checked book, each 1 or 0, and is m allowed?
pub fn allowed(b: &[i32], z: Sizes, marks: &[u8], m: usize) -> bool
    requires { Checked b.now z }
    ensures { result ≡ limit_allowed b.now (limit_of marks.now m) }
{
    marks.len() == action_total(b, z)
        && marks.iter().all(|mark| *mark <= HIGHEST_MARK)
        && m <= HIGHEST_LIMIT
}

// The most of v at the next states of action c of state p; 0 where it has none.
fn most_next(b: &[i32], a: Lines, p: usize, c: usize, v: &[usize; 64]) -> usize
    requires { LinesOf b.now p c a × (length v.now ≡ 64) }
    ensures { result ≡ most_next (number_at v.now) (action b.now p c).transitions }
{
    let mut most = 0;
    for i in 0..a.r {
        most = most.max(v[lines::next(b, a, p, c, i)]);
    }
    most
}

// The most marked actions on any path of the policy whose bytes begin at index `at`.
pub fn most(b: &[i32], z: Sizes, x: &[usize; 192], marks: &[u8], plans: &[u8], at: usize) -> usize
    requires { Indexed b.now z x.now × MarksOf b.now marks.now × (at + state_count b.now ≤ length plans.now) }
    ensures { result ≡ most_over b.now (mark_of b.now marks.now) (take (state_count b.now) (drop at plans.now)) }
{
    let mut v = [0; 64];
    let mut first = marks.len();
    for p in (0..z.s).rev() {
        let n = index::count(b, z, p);
        first -= n;
        let c = plans[at + p] as usize;
        if c < n {
            let a = lines::of_action(b, z, x, p, c);
            let mark = marks[first + c] as usize;
            v[p] = mark + most_next(b, a, p, c, &v);
        }
    }
    v[0]
}
