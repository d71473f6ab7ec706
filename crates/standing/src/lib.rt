// Where a policy stands (request 2.8): specs/Reasons.antt has what each answer says in the reader's words, proofs/Reasons.antt that the answer given is true and that exactly
// one fits, proofs/Calls.antt the numbers and figures of the call, specs/Example.antt three plans by computation.
#![tactic(auto)]
