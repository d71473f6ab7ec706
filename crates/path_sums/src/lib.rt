// Sums over the steps of a sample path (document 01: a day), and the greatest over the paths of a policy: specs/Most.antt has the definitions,
// proofs/Most.antt the recursion, proofs/Books.antt the laws of an accepted book.
#![tactic(auto)]
