// Laws about the questions of a book: what an accepted size, count or stage says.
#![tactic(auto)]
