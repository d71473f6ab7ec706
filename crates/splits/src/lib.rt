// Laws of the K-best method: splitting a set of policies, the search over any order, and the cost of a split.
#![tactic(auto)]
