// The calls of the library for C and other languages. A lent slice crosses as a pointer and a length; a figure is written through a pointer.
#![tactic(auto)]

ghost use Rattle.std.specs.Prelude.{◌≡◌, length, take, drop};
ghost use Rattle.std.specs.Result.{result_unwrap_or};
ghost use Rattle.model.specs.Questions.{book_number};
ghost use Rattle.model.specs.Record.{accept_number};
ghost use Rattle.model.specs.Calls.{power_of, value_number, value_cost, least_number, least_cost, room_of, rank_number, rank_count, rank_costs, rank_plans, small_number, small_count, small_costs, small_plans, write_number, write_length, write_record, accept_states, accept_count, shown, find_number, find_answer, find_value, limit_number, limit_answer, limit_rank};
ghost use Rattle.model.specs.Limit.{limit_of};
ghost use Rattle.reward_table.specs.Convert.{convert_number, convert_length, convert_slice};
ghost use Rattle.reservation.specs.Reservations.{held_by, committed_by, open_for, reply, asking, committing, cancelling, opening};
ghost use Rattle.refusal.specs.Refusal.{number_in};
ghost use Rattle.kbest_c.specs.Part.{shown_offset, shown_length};
ghost use Rattle.kbest_c.specs.Version.{version};

use accept::Accepted;
use refusal::Refusal;
use reservation::Desk;

// The version in the file VERSION: its first number × 10,000 + its second × 100 + its third.
const VERSION: u32 = 10800;

// The number of a call that gives one figure, which goes to the place for it: `none` where the call is refused.
fn told<T: Copy>(r: Result<T, Refusal>, none: T, figure: &mut T) -> u32
    ensures number { result ≡ number_in r }
    ensures figure { figure.new ≡ result_unwrap_or r none }
{
    *figure = r.unwrap_or(none);
    refusal::number(&r)
}

// The version of the library that is linked.
#[unsafe(no_mangle)]
pub extern "C" fn kbest_version() -> u32
    ensures { result ≡ version }
{
    VERSION
}

// The number of the first question of 1 to 13 that is answered no, or 0.
#[unsafe(no_mangle)]
pub extern "C" fn kbest_check(book: &[i32]) -> u32
    ensures { result ≡ book_number book.now }
{
    refusal::number(&check_book::check(book))
}

// d^e for d from 1 to 100 and e from 0 to 8, else 0.
#[unsafe(no_mangle)]
pub extern "C" fn kbest_power(d: usize, e: usize) -> u64
    ensures { result ≡ power_of d e }
{
    power::power(d, e)
}

// The number of valuing a plan of a book; its exact cost over D^H, 0 where it is refused.
#[tactic(auto, using(crate::proofs::Figures::figure_is), unfolding(model::specs::Calls::value_cost))]
#[unsafe(no_mangle)]
pub extern "C" fn kbest_value(book: &[i32], plan: &[u8], cost: &mut i64) -> u32
    ensures { (result ≡ value_number book.now plan.now) × (cost.new ≡ value_cost book.now plan.now) }
{
    told(value::value(book, plan), 0, cost)
}

// The number of the least cost of a book; that cost over D^H, 0 where it is refused.
#[tactic(auto, using(crate::proofs::Figures::figure_is), unfolding(model::specs::Calls::least_cost))]
#[unsafe(no_mangle)]
pub extern "C" fn kbest_least(book: &[i32], cost: &mut i64) -> u32
    ensures { (result ≡ least_number book.now) × (cost.new ≡ least_cost book.now) }
{
    told(least::least(book), 0, cost)
}

// The number of ranking the k best plans; how many are listed. Their costs and plans go to the fronts of the two slices.
#[tactic(auto, using(crate::proofs::Figures::figure_is), unfolding(model::specs::Calls::rank_count))]
#[unsafe(no_mangle)]
pub extern "C" fn kbest_rank(
    book: &[i32],
    k: usize,
    costs: &mut [i64],
    plans: &mut [u8],
    listed: &mut usize,
) -> u32
    ensures { (result ≡ rank_number book.now (room_of k costs.old plans.old)) × (listed.new ≡ rank_count book.now (room_of k costs.old plans.old)) × (costs.new ≡ rank_costs book.now k costs.old plans.old) × (plans.new ≡ rank_plans book.now k costs.old plans.old) }
{
    told(rank::rank(book, k, costs, plans), 0, listed)
}

// The same for a book with at most 4,096 plans, by going through all of them; a book with more gets 30.
#[tactic(auto, using(crate::proofs::Figures::figure_is), unfolding(model::specs::Calls::small_count))]
#[unsafe(no_mangle)]
pub extern "C" fn kbest_rank_small(
    book: &[i32],
    k: usize,
    costs: &mut [i64],
    plans: &mut [u8],
    listed: &mut usize,
) -> u32
    ensures { (result ≡ small_number book.now (room_of k costs.old plans.old)) × (listed.new ≡ small_count book.now (room_of k costs.old plans.old)) × (costs.new ≡ small_costs book.now k costs.old plans.old) × (plans.new ≡ small_plans book.now k costs.old plans.old) }
{
    told(rank_small::rank_small(book, k, costs, plans), 0, listed)
}

// The number of finding a plan in the list of a book and k; which of the three answers it gets, and its rank, amount or state, both 0 where it is refused.
#[tactic(auto, using(crate::proofs::Figures::figure_is), unfolding(model::specs::Calls::find_answer, model::specs::Calls::find_value))]
#[unsafe(no_mangle)]
pub extern "C" fn kbest_find(
    book: &[i32],
    k: usize,
    plan: &[u8],
    answer: &mut u32,
    value: &mut i64,
) -> u32
    ensures { (result ≡ find_number book.now k plan.now) × (answer.new ≡ find_answer book.now k plan.now) × (value.new ≡ find_value book.now k plan.now) }
{
    let found = find::find(book, k, plan);
    *answer = found.map_or(0, |a| a.number());
    *value = found.map_or(0, |a| a.value());
    refusal::number(&found)
}

// The number of seeking the first listed plan none of whose days makes more than m marked choices; which of the three answers there is, and the rank, 0 where
// there is none. Both are 0 where it is refused.
#[tactic(auto, using(crate::proofs::Figures::figure_is), unfolding(model::specs::Calls::limit_answer, model::specs::Calls::limit_rank))]
#[unsafe(no_mangle)]
pub extern "C" fn kbest_limit(
    book: &[i32],
    k: usize,
    marks: &[u8],
    m: usize,
    answer: &mut u32,
    rank: &mut usize,
) -> u32
    ensures { (result ≡ limit_number book.now k (limit_of marks.now m)) × (answer.new ≡ limit_answer book.now k (limit_of marks.now m)) × (rank.new ≡ limit_rank book.now k (limit_of marks.now m)) }
{
    let limited = limit::limit(book, k, marks, m);
    *answer = limited.map_or(0, |a| a.number());
    *rank = limited.map_or(0, |a| a.rank());
    refusal::number(&limited)
}

// The number of writing the record of a book and k; its length. The record goes to the front of the slice.
#[tactic(auto, using(crate::proofs::Figures::figure_is), unfolding(model::specs::Calls::write_length))]
#[unsafe(no_mangle)]
pub extern "C" fn kbest_write(book: &[i32], k: usize, filed: &mut [u8], size: &mut usize) -> u32
    ensures { (result ≡ write_number book.now k (length filed.old)) × (size.new ≡ write_length book.now k (length filed.old)) × (filed.new ≡ write_record book.now k filed.old) }
{
    told(write::write(book, k, filed), 0, size)
}

// The number of converting a planners' table to a book; the book's length in words. The book goes to the front of the slice.
#[tactic(auto, using(crate::proofs::Figures::figure_is), unfolding(reward_table::specs::Convert::convert_length))]
#[unsafe(no_mangle)]
pub extern "C" fn kbest_convert(table: &[i32], book: &mut [i32], size: &mut usize) -> u32
    ensures { (result ≡ convert_number table.now (length book.old)) × (size.new ≡ convert_length table.now (length book.old)) × (book.new ≡ convert_slice table.now book.old) }
{
    told(convert::convert(table, book), 0, size)
}

// The number of accepting a record; how many states its book has and how many plans it lists.
#[tactic(auto, using(crate::proofs::Figures::figure_is), unfolding(model::specs::Calls::accept_states, model::specs::Calls::accept_count))]
#[unsafe(no_mangle)]
pub extern "C" fn kbest_accept(filed: &[u8], states: &mut usize, listed: &mut usize) -> u32
    ensures { (result ≡ accept_number filed.now) × (states.new ≡ accept_states filed.now) × (listed.new ≡ accept_count filed.now) }
{
    let accepted = accept::accept(filed);
    *states = accepted.map_or(0, |a| a.s);
    *listed = accepted.map_or(0, |a| a.k);
    refusal::number(&accepted)
}

// Where plan j lies in the record: an offset and a length, both 0 where nothing is shown. An exported function returns no part of a slice.
#[unsafe(no_mangle)]
pub extern "C" fn kbest_show(filed: &[u8], j: usize, offset: &mut usize, size: &mut usize)
    ensures { (take size.new (drop offset.new filed.now) ≡ shown filed.now j) × (offset.new ≡ shown_offset filed.now j) × (size.new ≡ shown_length filed.now j) }
{
    let a = accept::accept(filed).unwrap_or(Accepted { s: 0, k: 0 });
    let p = place::locate(filed, a.s, a.k, j);
    *offset = p.from;
    *size = p.size;
}

// ---- the desk: a plain struct in the caller's memory, of k and sixteen ranks held and committed

// A desk that no record was opened at.
#[unsafe(no_mangle)]
pub extern "C" fn kbest_desk_fresh() -> Desk
    ensures { result ≡ open_for 0 }
{
    Desk::fresh()
}

// The number of opening a desk with a record; the desk afterwards has its k, and nothing held or committed.
#[unsafe(no_mangle)]
pub extern "C" fn kbest_desk_open(desk: &mut Desk, filed: &[u8]) -> u32
    ensures { reply result desk.new ≡ opening desk.old filed.now }
{
    refusal::number(&desk::open(desk, filed))
}

// The number of asking: the rank is then held for the rider.
#[unsafe(no_mangle)]
pub extern "C" fn kbest_desk_ask(desk: &mut Desk, rider: usize, rank: usize) -> u32
    ensures { reply result desk.new ≡ asking desk.old rider rank }
{
    refusal::number(&desk::ask(desk, rider, rank))
}

// The number of committing: the rank that the rider holds is then theirs.
#[unsafe(no_mangle)]
pub extern "C" fn kbest_desk_commit(desk: &mut Desk, rider: usize) -> u32
    ensures { reply result desk.new ≡ committing desk.old rider }
{
    refusal::number(&desk::commit(desk, rider))
}

// The number of cancelling: the rider then holds no rank.
#[unsafe(no_mangle)]
pub extern "C" fn kbest_desk_cancel(desk: &mut Desk, rider: usize) -> u32
    ensures { reply result desk.new ≡ cancelling desk.old rider }
{
    refusal::number(&desk::cancel(desk, rider))
}

// The rank that a rider holds, 0 none.
#[unsafe(no_mangle)]
pub extern "C" fn kbest_desk_held(desk: &Desk, rider: usize) -> usize
    ensures { result ≡ held_by desk.now rider }
{
    desk::held(desk, rider)
}

// The rank that a rider has committed to, 0 none.
#[unsafe(no_mangle)]
pub extern "C" fn kbest_desk_committed(desk: &Desk, rider: usize) -> usize
    ensures { result ≡ committed_by desk.now rider }
{
    desk::committed(desk, rider)
}
