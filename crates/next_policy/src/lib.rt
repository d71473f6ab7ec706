// The policies in the order of their bytes, each from the one before it: Next.antt has the definition (specs/) and the laws (proofs/) for any lists of actions,
// specs/Linked.antt what they rest on, proofs/Raise.antt the state where a policy and the next differ first, proofs/Books.antt the laws of an accepted book.
#![tactic(auto)]
