// Which policies keep a limit of marked actions (request 2.10): specs/Kept.antt has what that is over days, and the recursion that tells it,
// specs/Answers.antt what each of the three answers says, proofs/Answers.antt that the answer given is true and that no other is, proofs/Calls.antt the numbers and figures of the
// call, specs/Example.antt three plans by computation.
#![tactic(auto)]
