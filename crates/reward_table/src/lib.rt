// Planners' reward tables: their sizes, and their questions 25 and 26.
#![tactic(auto)]

ghost use Rattle.std.specs.Prelude.{◌≡◌, ◌+◌, ◌<◌, ◌≤◌, length};
ghost use Rattle.model.specs.Model.{word};
ghost use Rattle.model.specs.Questions.{first_no};
ghost use Rattle.reward_table.specs.Table.{table_states, table_state_line, sizes_given, lines_given, table_questions, sum_z};
ghost use Rattle.reward_table.specs.Read.{Given, TableRead, entry_given, Walked, WalkedTo};
ghost use Rattle.refusal.specs.Refusal.{number_in};

use refusal::Refusal;

// The sizes that a table begins with, D, H, n, the first state and L, and the word at which its left column begins.
#[derive(Clone, Copy)]
pub struct Table {
    pub d: usize,
    pub h: usize,
    pub n: usize,
    pub first: usize,
    pub l: usize,
    pub columns: usize,
}

// 25
fn sizes_given(t: &[i32]) -> bool
    ensures { result ≡ sizes_given t.now }
{
    t.len() >= 5
        && book::word_in(t, 2, 1, 16)
        && book::word_above(t, 3, -1)
        && book::words_rise(t, 3, 2)
        && book::word_in(t, 0, 1, 100)
        && book::word_in(t, 1, 1, 8)
        && book::word_in(t, 4, 1, 2048)
        && t.len() == 5 + book::size_at(t, 2) + 2 * book::size_at(t, 4)
}

// The sizes of a table that passes 25.
pub fn read_table(t: &[i32]) -> Table
    requires { Given t.now }
    ensures { TableRead t.now result }
{
    let n = book::size_at(t, 2);
    Table {
        d: book::size_at(t, 0),
        h: book::size_at(t, 1),
        n,
        first: book::size_at(t, 3),
        l: book::size_at(t, 4),
        columns: 5 + n,
    }
}

// The sum of words.
fn weigh(ws: &[i32]) -> i64
    requires { length ws.now ≤ 2048 }
    ensures { result ≡ sum_z (length ws.now) (word ws.now) }
{
    let mut sum = 0;
    for x in ws {
        sum += *x as i64;
    }
    sum
}

// 26, of the action whose first line is line j: its r, its lines, its weights and its reward.
fn entry_given(t: &[i32], z: Table, j: usize) -> bool
    requires { Given t.now × TableRead t.now z }
    ensures { result ≡ entry_given t.now j }
{
    let l = z.l;
    if l <= j {
        return false;
    }
    let at = z.columns + j;
    if !book::word_above(t, at, 0) {
        return false;
    }
    let r = book::size_at(t, at);
    let weights = at + l + 1;
    j + 1 + r <= l
        && book::word_in(t, at + l, -100000, 100000)
        && weigh(&t[weights..weights + r]) == z.d as i64
}

// The walk over the actions of state s, whose first line is line `start`: the line after the last, if each of them is as asked.
pub fn walk_state(t: &[i32], z: Table, s: usize, start: usize) -> Option<usize>
    requires { Given t.now × TableRead t.now z × (s < table_states t.now) × (start ≡ table_state_line t.now s) × (start ≤ 2048) }
    ensures { Walked t.now s result }
{
    let count = book::size_at(t, 5 + s);
    let mut at = start;
    for _c in 0..count {
        if !entry_given(t, z, at) {
            return None;
        }
        at += 1 + book::size_at(t, z.columns + at);
    }
    Some(at)
}

// The walk over the actions of the states below `end`.
pub fn walk_to(t: &[i32], z: Table, end: usize) -> Option<usize>
    requires { Given t.now × TableRead t.now z × (end ≤ table_states t.now) }
    ensures { WalkedTo t.now end result }
{
    let mut at: usize = 0;
    for s in 0..end {
        at = walk_state(t, z, s, at)?;
    }
    Some(at)
}

// 26
fn lines_given(t: &[i32], z: Table) -> bool
    requires { Given t.now × TableRead t.now z }
    ensures { result ≡ lines_given t.now }
{
    let n = z.n;
    if !book::words_in(t, 5, n, 1, 8) {
        return false;
    }
    let Some(at) = walk_to(t, z, n) else {
        return false;
    };
    let closing = z.columns + at;
    at + n == z.l
        && book::words_in(t, closing, n, 0, 0)
        && book::words_in(t, closing + z.l, n, -100000, 100000)
}

// The questions 25 and 26.
pub fn table_number(t: &[i32]) -> Result<(), Refusal>
    ensures { number_in result ≡ first_no table_questions t.now }
{
    if !sizes_given(t) {
        return Err(Refusal::TableSizes);
    }
    let z = read_table(t);
    if !lines_given(t, z) {
        return Err(Refusal::TableLines);
    }
    Ok(())
}
