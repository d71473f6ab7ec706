// The questions 1 to 8 of a book: its sizes and its counts.
#![tactic(auto)]

ghost use Rattle.std.specs.Prelude.{◌≡◌, ◌<◌, ◌≤◌, length};
ghost use Rattle.model.specs.Model.{word};
ghost use Rattle.model.specs.Questions.{first_no, sizes_allowed, length_allowed, counts_allowed, size_questions};
ghost use Rattle.questions.specs.Sizes.{Sized};
ghost use Rattle.book.specs.Read.{Headed, SizesAre};
ghost use Rattle.refusal.specs.Refusal.{number_in};

use book::Sizes;
use refusal::Refusal;

// 6
fn sizes_allowed(b: &[i32], z: Sizes) -> bool
    requires { Headed b.now × SizesAre b.now z }
    ensures { result ≡ sizes_allowed b.now }
{
    if !book::word_in(b, 3, 1, 1) {
        return false;
    }
    if !book::words_in(b, 4, z.h, 1, 16) {
        return false;
    }
    z.s <= 64
}

// 7
fn length_allowed(b: &[i32], z: Sizes) -> bool
    requires { Headed b.now × SizesAre b.now z × (z.s ≤ 64) × (z.l ≤ 2048) }
    ensures { result ≡ length_allowed b.now }
{
    b.len() == z.columns + 2 * z.l
}

// The questions 1 to 7.
pub fn size_number(b: &[i32]) -> Result<(), Refusal>
    ensures { number_in result ≡ first_no size_questions b.now }
{
    if b.len() < 3 {
        return Err(Refusal::TooShort);
    }
    if !book::word_in(b, 0, 1, 100) {
        return Err(Refusal::Scale);
    }
    if !book::word_in(b, 1, 1, 8) {
        return Err(Refusal::Horizon);
    }
    if !book::word_in(b, 2, 1, 2048) {
        return Err(Refusal::LineCount);
    }
    let h = book::size_at(b, 1);
    if b.len() < 4 + h {
        return Err(Refusal::NoStages);
    }
    let z = book::read_sizes(b);
    if !sizes_allowed(b, z) {
        return Err(Refusal::StageSizes);
    }
    if !length_allowed(b, z) {
        return Err(Refusal::Length);
    }
    Ok(())
}

// The most actions of a state, at stage H as at any other.
const MOST_ACTIONS: i32 = 8;

// 8
pub fn counts_allowed(b: &[i32], z: Sizes) -> bool
    requires { Sized b.now × SizesAre b.now z }
    ensures { result ≡ counts_allowed b.now }
{
    book::words_in(b, 4 + z.h, z.s, 1, MOST_ACTIONS)
}
