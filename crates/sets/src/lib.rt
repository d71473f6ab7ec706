// Sets of numbers as the bits of a number.
#![tactic(auto)]

ghost use Rattle.std.specs.Prelude.{◌≡◌, ℕ, ◌<◌};
ghost use Rattle.sets.specs.Sets.{has, with, union};

/// A number whose bits are a set: bit i says whether i is in it.
pub trait Set: Copy {
    // the number
    ghost bits: { Self → ℕ };

    // how many bits it has
    ghost places: { ℕ };

    // Is i in the set?
    fn has(self, i: usize) -> bool
        requires { i < places }
        ensures { result ≡ has (bits self) i };

    // The set with i.
    fn with(self, i: usize) -> Self
        requires { i < places }
        ensures { bits result ≡ with (bits self) i };

    // The numbers of either set.
    fn union(self, other: Self) -> Self
        ensures { bits result ≡ union (bits self) (bits other) };
}

// The actions of a state, of which there are at most 8.
impl Set for u8 {
    ghost bits = { λ set. set };

    ghost places = { 8 };

    fn has(self, i: usize) -> bool {
        (self >> i) % 2 == 1
    }

    fn with(self, i: usize) -> u8 {
        self | (1u8 << i)
    }

    fn union(self, other: u8) -> u8 {
        self | other
    }
}

// The states of a model, of which there are at most 64.
impl Set for u64 {
    ghost bits = { λ set. set };

    ghost places = { 64 };

    fn has(self, i: usize) -> bool {
        (self >> i) % 2 == 1
    }

    fn with(self, i: usize) -> u64 {
        self | (1u64 << i)
    }

    fn union(self, other: u64) -> u64 {
        self | other
    }
}
