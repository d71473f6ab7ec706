// Converting a planners' table to a book: the questions 25 to 27, then 1 to 13 of the book, and its words at the front of the lent slice.
#![tactic(auto)]

ghost use Rattle.std.specs.Prelude.{◌≡◌, ◌≤◌, length, IfOk};
ghost use Rattle.model.specs.Questions.{first_no};
ghost use Rattle.reward_table.specs.Table.{table_questions};
ghost use Rattle.reward_table.specs.Read.{TableRead};
ghost use Rattle.table_book.specs.Read.{Made};
ghost use Rattle.reward_table.specs.Convert.{convert_number, convert_length, convert_slice};
ghost use Rattle.refusal.specs.Refusal.{number_in};

use refusal::Refusal;
use reward_table::Table;
use table_book::Sizes;

// The book of a table that passes 25 and 26, where a book of its length has room in both slices. It is made and checked in the first, since a refusal writes
// nothing to the second.
fn put_checked(
    t: &[i32],
    z: Table,
    s: Sizes,
    book: &mut [i32],
    out: &mut [i32],
) -> Result<usize, Refusal>
    requires { (first_no table_questions t.now ≡ 0) × TableRead t.now z × Made t.now s × (s.length ≤ length book.old) × (s.length ≤ length out.old) }
    ensures number { number_in result ≡ convert_number t.now (length out.old) }
    ensures long { IfOk result (λ n. n ≡ convert_length t.now (length out.old)) }
    ensures book { out.new ≡ convert_slice t.now out.old }
{
    let length = s.length;
    table_book::put_book(t, z, s, book);
    check_book::check(&book[..length])?;
    out[..length].copy_from_slice(&book[..length]);
    Ok(length)
}

// The book of any table: its length in words; one that is too large to be made is refused by its sizes.
pub fn convert(t: &[i32], out: &mut [i32]) -> Result<usize, Refusal>
    ensures number { number_in result ≡ convert_number t.now (length out.old) }
    ensures long { IfOk result (λ n. n ≡ convert_length t.now (length out.old)) }
    ensures book { out.new ≡ convert_slice t.now out.old }
{
    reward_table::table_number(t)?;
    let z = reward_table::read_table(t);
    let s = table_book::measure(t, z);
    if out.len() < s.length {
        return Err(Refusal::BookRoom);
    }
    if 2048 < s.lines {
        return Err(Refusal::LineCount);
    }
    if 64 < s.states {
        return Err(Refusal::StageSizes);
    }
    // the longest book has 4,172 words, and clearing so many takes longer than a short book does
    if s.length <= 512 {
        put_checked(t, z, s, &mut [0; 512], out)
    } else {
        put_checked(t, z, s, &mut [0; 4172], out)
    }
}
