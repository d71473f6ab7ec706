// Request 2.7. Books without the mark: Open.antt has their policies, specs/Former.antt the rules before the request, proofs/Same.antt the laws. Books
// with it: Avoid.antt has their policies as those that avoid closed actions.
#![tactic(auto)]
