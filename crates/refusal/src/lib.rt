// Why a call is refused: the first question that is answered no (document 01: the check that failed).
#![tactic(auto)]

ghost use Rattle.std.specs.Prelude.{◌≡◌};
ghost use Rattle.refusal.specs.Refusal.{number_of, number_in};

/// The question, with the number that documents 01 and 02 give it.
#[derive(Clone, Copy, Debug, PartialEq, Eq)]
pub enum Refusal {
    TooShort = 1,
    Scale = 2,
    Horizon = 3,
    LineCount = 4,
    NoStages = 5,
    StageSizes = 6,
    Length = 7,
    ActionCounts = 8,
    Lines = 9,
    Cost = 10,
    NextStates = 11,
    Weights = 12,
    CostBound = 13,
    Count = 14,
    CostRoom = 15,
    PlanRoom = 16,
    Plan = 17,
    RecordRoom = 18,
    RecordHead = 19,
    RecordLength = 20,
    RecordList = 21,
    Rider = 22,
    Rank = 23,
    Taken = 24,
    TableSizes = 25,
    TableLines = 26,
    BookRoom = 27,
    NoPlan = 28,
    Marks = 29,
    ManyPlans = 30,
}

impl From<Refusal> for u32 {
    ghost from_gives = { λ q n. n ≡ number_of q };

    fn from(q: Refusal) -> u32 {
        q as u32
    }
}

/// The number of a call: 0 where it is not refused.
pub fn number<T>(r: &Result<T, Refusal>) -> u32
    ensures { result ≡ number_in r.now }
{
    match r {
        Ok(_) => 0,
        Err(q) => u32::from(*q),
    }
}
