// Request 2.5, a converted table: proofs/Demands.antt has its laws in the reader's words, proofs/Sizes.antt, Days.antt and Policies.antt what they rest
// on, specs/Example.antt one table by computation.
#![tactic(auto)]
