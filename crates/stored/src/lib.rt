// Laws of the search as it is stored: a candidate is a policy's cost and bytes, the state where it was split off and the actions barred there.
#![tactic(auto)]
