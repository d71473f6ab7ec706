// Request 2.1, "Books without stops give the same records": specs/Base.antt has the rules of document 01 before it, specs/Same.antt the laws.
#![tactic(auto)]
