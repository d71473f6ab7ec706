// Request 2.10, "At most m hill climbs": the rank of the first listed policy none of whose sample paths takes more than m marked actions.
#![tactic(auto)]

ghost use Rattle.std.specs.Prelude.{◌≡◌, ◌*◌, ◌≤◌, ◌<◌, length, IfOk, MatchOption};
ghost use Rattle.model.specs.Lists.{first_where};
ghost use Rattle.model.specs.Model.{state_count};
ghost use Rattle.model.specs.Limit.{limit_of, keeps_limit, first_kept, kept_number, kept_rank};
ghost use Rattle.model.specs.Calls.{limit_number};
ghost use Rattle.index.specs.Index.{Indexed};
ghost use Rattle.record.specs.Parts.{parts};
ghost use Rattle.marks.specs.Marks.{MarksOf};
ghost use Rattle.limit.specs.Says.{says, none_of};
ghost use Rattle.refusal.specs.Refusal.{number_in};

use book::Sizes;
use refusal::Refusal;

// Which of the three answers there is.
#[derive(Clone, Copy, Debug, PartialEq, Eq)]
pub enum Kept {
    // the rank of the first listed plan that keeps the limit, from 1
    Rank(u8),
    // none in the list does
    NoneListed,
    // none in the book does
    NoneInBook,
}

impl Kept {
    ghost use Rattle.limit.specs.Says.{says};

    // Which of the three, from 1.
    pub fn number(self) -> u32
        ensures { result ≡ kept_number (says self) }
    {
        match self {
            Kept::Rank(_) => 1,
            Kept::NoneListed => 2,
            Kept::NoneInBook => 3,
        }
    }

    // The rank, 0 where there is none.
    pub fn rank(self) -> usize
        ensures { result ≡ kept_rank (says self) }
    {
        match self {
            Kept::Rank(j) => usize::from(j),
            _ => 0,
        }
    }
}

// Ranks are counted from 1.
const FIRST_RANK: u8 = 1;

// How many of the n listed policies stand above the first that keeps the limit, if one does.
fn above_kept(
    b: &[i32],
    z: Sizes,
    x: &[usize; 192],
    marks: &[u8],
    m: usize,
    plans: &[u8],
    n: usize,
) -> Option<usize>
    requires { Indexed b.now z x.now × MarksOf b.now marks.now × (n * state_count b.now ≤ length plans.now) }
    ensures { MatchOption result (first_where (keeps_limit b.now (limit_of marks.now m)) (parts plans.now (state_count b.now) 0 n) ≡ n)
        (λ j. (j ≡ first_where (keeps_limit b.now (limit_of marks.now m)) (parts plans.now (state_count b.now) 0 n)) × (j < n)) }
{
    (0..n).find(|i| marks::most(b, z, x, marks, plans, *i * z.s) <= m)
}

// That none keeps the limit, where n of k policies are listed: none in the list, if it may have left some out.
fn none_kept(n: usize, k: usize) -> Kept
    ensures { says result ≡ none_of n k }
{
    if n < k {
        return Kept::NoneInBook;
    }
    Kept::NoneListed
}

// The first listed plan that keeps the limit, for any book, count, marks and m.
pub fn limit(b: &[i32], k: usize, marks: &[u8], m: usize) -> Result<Kept, Refusal>
    ensures number { number_in result ≡ limit_number b.now k (limit_of marks.now m) }
    ensures answer { IfOk result (λ a. says a ≡ first_kept b.now k (limit_of marks.now m)) }
{
    asked::counted_number(b, k)?;
    let z = lines::sizes(b);
    let x = index::index(b, z);
    let mut costs = [0; 64];
    let mut plans = [0; 4096];
    let n = listing::fill_by(b, z, &x, k, &mut costs, &mut plans);
    if n == 0 {
        return Err(Refusal::NoPlan);
    }
    if !marks::allowed(b, z, marks, m) {
        return Err(Refusal::Marks);
    }
    if let Some(j) = above_kept(b, z, &x, marks, m, &plans, n) {
        return Ok(Kept::Rank(j as u8 + FIRST_RANK));
    }
    Ok(none_kept(n, k))
}
