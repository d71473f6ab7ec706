// Reading the words of a book: single words, the sizes, and the stage of each state in order.
#![tactic(auto)]

ghost use Rattle.std.specs.Prelude.{◌≡◌, ◌+◌, ◌<◌, ◌≤◌, pos, nat_abs, length};
ghost use Rattle.std.specs.Int.Signed.{lt_z};
ghost use Rattle.model.specs.Lists.{all};
ghost use Rattle.model.specs.Model.{word, horizon, state_count, closed};
ghost use Rattle.model.specs.Questions.{inside};
ghost use Rattle.questions.specs.Sizes.{Sized};
ghost use Rattle.book.specs.Read.{SizeIs, Headed, SizesAre, StageFor, StageNear};

// The sizes that a book begins with, D, H, L and S of document 01, and the word at which its left column begins.
#[derive(Clone, Copy)]
pub struct Sizes {
    pub d: usize,
    pub h: usize,
    pub l: usize,
    pub s: usize,
    pub columns: usize,
}

// A cost of this many seconds marks an action as closed.
const CLOSED: i32 = 200000;

// A stage, and the number of the first state after it.
#[derive(Clone, Copy)]
pub struct Stage {
    pub n: usize,
    pub end: usize,
}

fn within(x: i32, lo: i32, hi: i32) -> bool
    ensures { result ≡ inside lo hi x }
{
    lo <= x && x <= hi
}

// Is word i from lo to hi?
#[tactic(auto, unfolding(model::specs::Model::word))]
pub fn word_in(b: &[i32], i: usize, lo: i32, hi: i32) -> bool
    requires { i < length b.now }
    ensures { result ≡ inside lo hi (word b.now i) }
{
    within(b[i], lo, hi)
}

// Word i.
#[tactic(auto, unfolding(model::specs::Model::word))]
pub fn word_at(b: &[i32], i: usize) -> i32
    requires { i < length b.now }
    ensures { result ≡ word b.now i }
{
    b[i]
}

// Is word i, a cost, the mark of a closed action?
#[tactic(auto, unfolding(model::specs::Model::word))]
pub fn is_closed(b: &[i32], i: usize) -> bool
    requires { i < length b.now }
    ensures { result ≡ closed (word b.now i) }
{
    b[i] == CLOSED
}

// Are the n words from word `at` on each from lo to hi?
pub fn words_in(b: &[i32], at: usize, n: usize, lo: i32, hi: i32) -> bool
    requires { at + n ≤ length b.now }
    ensures { result ≡ all n (λ i. inside lo hi (word b.now (at + i))) }
{
    for i in 0..n {
        if !word_in(b, at + i, lo, hi) {
            return false;
        }
    }
    true
}

// Word i without its sign.
#[tactic(auto, unfolding(model::specs::Model::word))]
pub fn size_at(b: &[i32], i: usize) -> usize
    requires { i < length b.now }
    ensures { SizeIs (word b.now i) result }
{
    b[i].unsigned_abs() as usize
}

// Is word i above x?
#[tactic(auto, unfolding(model::specs::Model::word))]
pub fn word_above(b: &[i32], i: usize, x: i32) -> bool
    requires { i < length b.now }
    ensures { result ≡ lt_z x (word b.now i) }
{
    x < b[i]
}

// Is word i below word k?
#[tactic(auto, unfolding(model::specs::Model::word))]
pub fn words_rise(b: &[i32], i: usize, k: usize) -> bool
    requires { (i < length b.now) × (k < length b.now) }
    ensures { result ≡ lt_z (word b.now i) (word b.now k) }
{
    b[i] < b[k]
}

// Is word i below n?
pub fn word_below(b: &[i32], i: usize, n: usize) -> bool
    requires { i < length b.now }
    ensures { result ≡ lt_z (word b.now i) (pos n) }
{
    if !word_above(b, i, -1) {
        return true;
    }
    size_at(b, i) < n
}

// S, the number of states: the sum of at most nine counts, none above 2^31.
fn states(b: &[i32], h: usize) -> usize
    requires { (h ≡ horizon b.now) × (h ≤ 8) × (4 + h ≤ length b.now) }
    ensures { (result ≡ state_count b.now) × (result ≤ 19327352832) }
{
    let mut s: usize = 0;
    for n in 0..h + 1 {
        s = s + size_at(b, 3 + n);
    }
    s
}

// The sizes of a book that has its post counts.
pub fn read_sizes(b: &[i32]) -> Sizes
    requires { Headed b.now }
    ensures { SizesAre b.now result }
{
    let h = size_at(b, 1);
    let s = states(b, h);
    Sizes {
        d: size_at(b, 0),
        h: h,
        l: size_at(b, 2),
        s: s,
        columns: 4 + h + s,
    }
}

// The stage of state p, where t is that of the state before it or of p itself. Stages have states, so one step is enough.
pub fn stage_for(b: &[i32], z: Sizes, t: Stage, p: usize) -> Stage
    requires { Sized b.now × SizesAre b.now z × StageNear b.now p t × (p < state_count b.now) }
    ensures { StageFor b.now p result }
{
    let n = t.n;
    let end = t.end;
    if p == end {
        return Stage {
            n: n + 1,
            end: end + size_at(b, 4 + n),
        };
    }
    t
}
