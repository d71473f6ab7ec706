// Writing a record: the questions 1 to 14, 28 and 18, and the record's bytes at the front of the lent slice.
#![tactic(auto)]

ghost use Rattle.std.specs.Prelude.{◌≡◌, length, IfOk};
ghost use Rattle.model.specs.Calls.{write_number, write_length, write_record};
ghost use Rattle.refusal.specs.Refusal.{number_in};

use refusal::Refusal;

// The record of any book and count: its length. A refusal writes nothing.
pub fn write(b: &[i32], k: usize, out: &mut [u8]) -> Result<usize, Refusal>
    ensures number { number_in result ≡ write_number b.now k (length out.old) }
    ensures long { IfOk result (λ n. n ≡ write_length b.now k (length out.old)) }
    ensures record { out.new ≡ write_record b.now k out.old }
{
    asked::counted_number(b, k)?;
    let list = listing::list(b, k);
    if list.n == 0 {
        return Err(Refusal::NoPlan);
    }
    let long = 12 + 4 * b.len() + 8 * list.n + list.n * list.s;
    if out.len() < long {
        return Err(Refusal::RecordRoom);
    }
    record::put_record(b, k, &list, out);
    Ok(long)
}
