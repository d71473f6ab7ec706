// Request 2.2, "What a slower leg can do": specs/Raise.antt has the book with one cost raised, proofs/Same.antt, Options.antt, Moves.antt and Records.antt the laws.
#![tactic(auto)]
