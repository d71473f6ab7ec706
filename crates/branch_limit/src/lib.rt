// Request 2.3, "No filed record is affected": specs/Former.antt has the rules before it, proofs/Same.antt the laws, specs/Rows.antt books on both sides of the limit.
#![tactic(auto)]
