// Accepting a record: the questions 19, 1 to 14, 28, 20 and 21 for any bytes; and showing one policy of a record.
#![tactic(auto)]

ghost use Rattle.std.specs.Prelude.{◌≡◌, IfOk};
ghost use Rattle.model.specs.Questions.{first_no};
ghost use Rattle.model.specs.Record.{carried_book, head_questions, accept_number};
ghost use Rattle.model.specs.Calls.{accept_states, accept_count, shown};
ghost use Rattle.refusal.specs.Refusal.{number_in};

use refusal::Refusal;

// Of a record that is accepted: how many states its book has and how many policies are listed. Where none is, both are 0.
#[derive(Clone, Copy, Default)]
pub struct Accepted {
    pub s: usize,
    pub k: usize,
}

// All that is asked after 19, of the carried book b.
fn accept_book(r: &[u8], b: &[i32]) -> Result<Accepted, Refusal>
    requires { (first_no head_questions r.now ≡ 0) × (b.now ≡ carried_book r.now) }
    ensures number { number_in result ≡ accept_number r.now }
    ensures states { IfOk result (λ a. a.s ≡ accept_states r.now) }
    ensures count { IfOk result (λ a. a.k ≡ accept_count r.now) }
{
    let k = record::carried_k(r);
    asked::counted_number(b, k)?;
    let list = listing::list(b, k);
    if list.n == 0 {
        return Err(Refusal::NoPlan);
    }
    record::tail_number(r, &list)?;
    Ok(Accepted {
        s: list.s,
        k: list.n,
    })
}

// Any bytes: are they the record that is written for the book and the count they carry?
pub fn accept(r: &[u8]) -> Result<Accepted, Refusal>
    ensures number { number_in result ≡ accept_number r.now }
    ensures states { IfOk result (λ a. a.s ≡ accept_states r.now) }
    ensures count { IfOk result (λ a. a.k ≡ accept_count r.now) }
{
    record::head_number(r)?;
    let mut words = [0; 4172];
    record::read_book(r, &mut words);
    let w = record::carried_length(r);
    accept_book(r, &words[..w])
}

// The bytes of policy j, a part of the record; an empty part where the record is not accepted or has no such policy.
pub fn show(r: &[u8], j: usize) -> &[u8]
    ensures { result.now ≡ shown r.now j }
{
    let a = accept(r).unwrap_or_default();
    place::part(r, a.s, a.k, j)
}
