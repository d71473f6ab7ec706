// Laws about policies, paths and rankings, over any actions and options.
#![tactic(auto)]
