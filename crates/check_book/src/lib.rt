// Checking a book: the questions 1 to 13. One walk over the lines answers 9 to 13.
#![tactic(auto)]

ghost use Rattle.std.specs.Prelude.{◌≡◌, ◌+◌, ◌*◌, ◌^◌, ◌/◌, ◌≤◌};
ghost use Rattle.model.specs.Model.{action_count};
ghost use Rattle.model.specs.Questions.{book_number};
ghost use Rattle.questions.specs.Sizes.{Sized};
ghost use Rattle.book.specs.Read.{SizesAre};
ghost use Rattle.check_book.specs.Walk.{lowest, StateOf, Progress, Walked, walk_number};
ghost use Rattle.refusal.specs.Refusal.{number_in};

use actions::Limits;
use book::{Sizes, Stage};
use refusal::Refusal;

// How far a walk over the actions has come.
#[derive(Clone, Copy)]
pub struct Walk {
    // the first of the questions 10 to 13 that one of them fails
    pub answer: Result<(), Refusal>,
    // the word of the line after the last action, in the left column
    pub at: usize,
}

// The answer of the lower number, where one is no.
fn lower(x: Result<(), Refusal>, y: Result<(), Refusal>) -> Result<(), Refusal>
    ensures { number_in result ≡ lowest (number_in x) (number_in y) }
{
    match (x, y) {
        (Ok(()), _) => y,
        (_, Ok(())) => x,
        (Err(a), Err(b)) => { if u32::from(b) < u32::from(a) { y } else { x } }
    }
}

// The walk over the actions of state p; 9 where one of them fails it.
fn walk_state(b: &[i32], z: Sizes, q: Limits, p: usize, start: Walk) -> Result<Walk, Refusal>
    requires { Sized b.now × SizesAre b.now z × StateOf b.now p q × Progress b.now z q.most p 0 start }
    ensures { Walked b.now z q.most p (action_count b.now p) result }
{
    let count = book::size_at(b, 4 + z.h + p);
    let mut w = start;
    for _c in 0..count {
        let at = w.at;
        if !actions::action_fits(b, z, q.n, at) {
            return Err(Refusal::Lines);
        }
        let r = book::size_at(b, at);
        let answer = actions::action_number(b, z, q, at, r);
        w = Walk {
            answer: lower(w.answer, answer),
            at: at + 1 + r,
        };
    }
    Ok(w)
}

// The questions 9 to 13. `most` is the largest cost that 13 allows.
fn walk_lines(b: &[i32], z: Sizes, most: usize) -> Result<(), Refusal>
    requires { Sized b.now × SizesAre b.now z }
    ensures { number_in result ≡ walk_number most b.now }
{
    let mut t = Stage { n: 0, end: 1 };
    let mut w = Walk {
        answer: Ok(()),
        at: z.columns,
    };
    for p in 0..z.s {
        t = book::stage_for(b, z, t, p);
        let q = Limits {
            n: t.n,
            width: book::size_at(b, 4 + t.n),
            most,
        };
        w = walk_state(b, z, q, p, w)?;
    }
    if w.at != z.columns + z.l {
        return Err(Refusal::Lines);
    }
    w.answer
}

// The largest cost that 13 allows. The product that 13 names can exceed 64 bits, so the bound is divided instead.
fn cost_limit(z: Sizes) -> usize
    requires { (1 ≤ z.d) × (z.d ≤ 100) × (z.h ≤ 8) }
    ensures { result ≡ 4000000000000000000 / (z.d ^ z.h * (z.h + 1)) }
{
    let unit = power::raised(z.d, z.h) * (z.h as u64 + 1);
    (4000000000000000000 / unit) as usize
}

// Checking a book: the questions 1 to 13.
pub fn check(b: &[i32]) -> Result<(), Refusal>
    ensures { number_in result ≡ book_number b.now }
{
    header::size_number(b)?;
    let z = book::read_sizes(b);
    if !header::counts_allowed(b, z) {
        return Err(Refusal::ActionCounts);
    }
    let most = cost_limit(z);
    walk_lines(b, z, most)
}
