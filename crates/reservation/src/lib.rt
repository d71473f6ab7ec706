// Reservations: ranks of one accepted record, for sixteen riders. A rank is held on asking and theirs on committing. Each call takes a desk by value and
// gives the next. Its number alone is had too, for a desk that is lent, where only what a granted call changes is written.
#![tactic(auto)]

ghost use Rattle.std.specs.Prelude.{◌≡◌, not, ◌||◌, eqb, get_or};
ghost use Rattle.model.specs.Questions.{first_no};
ghost use Rattle.reservation.specs.Reservations.{held_by, committed_by, free, ask_questions, commit_questions, cancel_questions, open_for, holding, taking, answer, asking, committing, cancelling};
ghost use Rattle.refusal.specs.Refusal.{number_in};

use refusal::Refusal;

// How many riders there are.
const RIDERS: usize = 16;

// What is reserved (document 02: the desk): which rank of the record is whose.
#[repr(C)]
#[derive(Clone, Copy)]
pub struct Desk {
    // how many plans the record lists, at most 64; 0 before a record is opened
    pub k: u8,
    // by rider: the rank held, 0 none
    pub held: [u8; 16],
    // by rider: the rank committed, 0 none
    pub committed: [u8; 16],
}

// The number of a call and the desk afterwards. Two fields, not a Result: asking, committing, cancelling and opening of the specs, the laws of calls at a desk
// and the edit refused_call_changes_the_desk read both.
#[derive(Clone, Copy)]
pub struct Answer {
    pub no: u32,
    pub desk: Desk,
}

// A desk for k plans, with nothing held or committed.
fn open_for(k: u8) -> Desk
    ensures { result ≡ open_for k }
{
    Desk {
        k,
        held: [0; 16],
        committed: [0; 16],
    }
}

// Is a rank with a rider? Then how the rider's number differs from the asker's, so 0 for the asker; else 0.
fn differs(held: u8, committed: u8, rank: u8, apart: u8) -> u8
    ensures { eqb result 0 ≡ (not (eqb held rank || eqb committed rank) || eqb apart 0) }
{
    if held == rank || committed == rank {
        apart
    } else {
        0
    }
}

// 22, which each call of a rider asks first; of cancelling it is the whole.
#[tactic(auto, using(crate::proofs::Refusals::refusals))]
fn rider_number(rider: usize) -> Result<(), Refusal>
    ensures { number_in result ≡ first_no cancel_questions rider }
{
    if rider >= RIDERS {
        return Err(Refusal::Rider);
    }
    Ok(())
}

// The rank of a rider in a row of ranks, 0 where there is none, and for a number that is no rider's.
fn rank_of(ranks: [u8; 16], rider: usize) -> usize
    ensures { result ≡ get_or ranks rider 0 }
{
    if rider < RIDERS {
        ranks[rider] as usize
    } else {
        0
    }
}

impl Desk {
    // A desk that no record was opened at.
    pub fn fresh() -> Desk
        ensures { result ≡ open_for 0 }
    {
        open_for(0)
    }

    // The rank that a rider holds, 0 none.
    pub fn held_by(self, rider: usize) -> usize
        ensures { result ≡ held_by self rider }
    {
        rank_of(self.held, rider)
    }

    // The rank that a rider has committed to, 0 none.
    pub fn committed_by(self, rider: usize) -> usize
        ensures { result ≡ committed_by self rider }
    {
        rank_of(self.committed, rider)
    }

    // Is the rank with no other rider? All sixteen are asked, with no branch on what one has: sixteen bytes are compared at a time. (With a bool for each
    // rider in place of a byte it was tried and slower.)
    #[tactic(auto, using(crate::proofs::Bits::bits))]
    fn is_free(self, rider: u8, rank: u8) -> bool
        ensures { result ≡ free self rider rank }
    {
        let mut others: u8 = 0;
        for i in 0..RIDERS {
            others |= differs(self.held[i], self.committed[i], rank, i as u8 ^ rider);
        }
        others == 0
    }

    // The questions of asking. A rank that is listed is a byte, as k is one.
    #[tactic(auto, using(crate::proofs::Refusals::refusals))]
    pub fn ask_number(self, rider: usize, rank: usize) -> Result<(), Refusal>
        ensures { number_in result ≡ first_no (ask_questions self rank) rider }
    {
        rider_number(rider)?;
        if rank < 1 || rank > self.k as usize {
            return Err(Refusal::Rank);
        }
        if self.committed_by(rider) != 0 {
            return Err(Refusal::Taken);
        }
        let free = self.is_free(rider as u8, rank as u8);
        if free { Ok(()) } else { Err(Refusal::Taken) }
    }

    // The questions of committing.
    #[tactic(auto, using(crate::proofs::Refusals::refusals))]
    pub fn commit_number(self, rider: usize) -> Result<(), Refusal>
        ensures { number_in result ≡ first_no (commit_questions self) rider }
    {
        rider_number(rider)?;
        if self.held_by(rider) == 0 {
            Err(Refusal::Taken)
        } else {
            Ok(())
        }
    }

    // The question of cancelling.
    pub fn cancel_number(self, rider: usize) -> Result<(), Refusal>
        ensures { number_in result ≡ first_no cancel_questions rider }
    {
        rider_number(rider)
    }

    // The rider holds the rank, and no other; 0 drops the hold. A number that is no rider's changes nothing.
    fn holding(mut self, rider: usize, rank: u8) -> Desk
        ensures { result ≡ holding self rider rank }
    {
        if rider < RIDERS {
            self.held[rider] = rank;
        }
        self
    }

    // The rank that the rider held is theirs, and the hold has ended.
    fn taking(self, rider: usize) -> Desk
        ensures { result ≡ taking self rider }
    {
        let mut next = self.holding(rider, 0);
        if rider < RIDERS {
            next.committed[rider] = self.held[rider];
        }
        next
    }

    // A refused call changes nothing.
    fn answer(self, no: u32, next: Desk) -> Answer
        ensures { result ≡ answer no next self }
    {
        if no == 0 {
            Answer { no: 0, desk: next }
        } else {
            Answer { no, desk: self }
        }
    }

    // A granted ask drops the rider's earlier hold. A rank that is granted is listed, so it is a byte and not cut.
    #[tactic(auto, using(crate::proofs::Refusals::same_byte), unfolding(crate::specs::Reservations::asking))]
    pub fn asking(self, rider: usize, rank: usize) -> Answer
        ensures { result ≡ asking self rider rank }
    {
        let asked = self.ask_number(rider, rank);
        self.answer(
            refusal::number(&asked),
            self.holding(rider, (rank % 256) as u8),
        )
    }

    // The rank held becomes the rider's.
    #[tactic(auto, unfolding(crate::specs::Reservations::committing))]
    pub fn committing(self, rider: usize) -> Answer
        ensures { result ≡ committing self rider }
    {
        let asked = self.commit_number(rider);
        self.answer(refusal::number(&asked), self.taking(rider))
    }

    // A hold is dropped, a commitment never.
    #[tactic(auto, unfolding(crate::specs::Reservations::cancelling))]
    pub fn cancelling(self, rider: usize) -> Answer
        ensures { result ≡ cancelling self rider }
    {
        let asked = rider_number(rider);
        self.answer(refusal::number(&asked), self.holding(rider, 0))
    }

    // Opening, of the number and the k that accepting the record gives.
    pub fn opening(self, no: u32, k: u8) -> Answer
        ensures { result ≡ answer no (open_for k) self }
    {
        self.answer(no, open_for(k))
    }
}
