// The desk in the caller's memory: each call of a rider asks a method by value for its number, and writes what a granted one changes; opening puts the next
// desk in the place of the one there.
#![tactic(auto)]

ghost use Rattle.std.specs.Prelude.{◌≡◌};
ghost use Rattle.reservation.specs.Reservations.{held_by, committed_by, reply, asking, committing, cancelling, opening};
ghost use Rattle.refusal.specs.Refusal.{number_in};

use refusal::Refusal;
use reservation::{Answer, Desk};

// Opening by value: the record's questions are asked.
#[tactic(auto, using(crate::proofs::Calls::calls), unfolding(reservation::specs::Reservations::opening))]
pub fn opened(desk: Desk, record: &[u8]) -> Answer
    ensures { result ≡ opening desk «record».now }
{
    match accept::accept(record) {
        Ok(a) => desk.opening(0, a.k as u8),
        Err(q) => desk.opening(q.into(), 0),
    }
}

// Holds a rank for a rider, whose earlier hold is dropped. A rank that is listed is a byte, as k is one.
#[tactic(auto, using(crate::proofs::Calls::calls), unfolding(reservation::specs::Reservations::asking))]
pub fn ask(desk: &mut Desk, rider: usize, rank: usize) -> Result<(), Refusal>
    ensures { reply (number_in result) desk.new ≡ asking desk.old rider rank }
{
    desk.ask_number(rider, rank)?;
    prove!(rank <= desk.k as usize);
    desk.held[rider] = rank as u8;
    Ok(())
}

// The rank that the rider holds becomes theirs.
#[tactic(auto, using(crate::proofs::Calls::calls), unfolding(reservation::specs::Reservations::committing))]
pub fn commit(desk: &mut Desk, rider: usize) -> Result<(), Refusal>
    ensures { reply (number_in result) desk.new ≡ committing desk.old rider }
{
    desk.commit_number(rider)?;
    desk.committed[rider] = desk.held[rider];
    desk.held[rider] = 0;
    Ok(())
}

// Drops what the rider holds, and never a commitment.
#[tactic(auto, using(crate::proofs::Calls::calls), unfolding(reservation::specs::Reservations::cancelling))]
pub fn cancel(desk: &mut Desk, rider: usize) -> Result<(), Refusal>
    ensures { reply (number_in result) desk.new ≡ cancelling desk.old rider }
{
    desk.cancel_number(rider)?;
    desk.held[rider] = 0;
    Ok(())
}

// Opens the desk, also anew, with the k of a record that is accepted.
#[tactic(auto, using(crate::proofs::Calls::calls), unfolding(reservation::specs::Reservations::opening))]
pub fn open(desk: &mut Desk, record: &[u8]) -> Result<(), Refusal>
    ensures { reply (number_in result) desk.new ≡ opening desk.old «record».now }
{
    let a = accept::accept(record)?;
    *desk = desk.opening(0, a.k as u8).desk;
    Ok(())
}

// The rank that a rider holds, 0 none.
pub fn held(desk: &Desk, rider: usize) -> usize
    ensures { result ≡ held_by desk.now rider }
{
    desk.held_by(rider)
}

// The rank that a rider has committed to, 0 none.
pub fn committed(desk: &Desk, rider: usize) -> usize
    ensures { result ≡ committed_by desk.now rider }
{
    desk.committed_by(rider)
}
