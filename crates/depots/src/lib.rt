// Request 2.9, "Where the bike sleeps". Books with one closing choice a post: specs/Former.antt has the rules before the request, proofs/Same.antt the laws.
// Books with more: specs/Choice.antt and proofs/Choice.antt have what another depot does to a plan, its cost and its place.
#![tactic(auto)]
