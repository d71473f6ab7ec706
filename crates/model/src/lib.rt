// The definitions of specs/ alone: what every call of the other crates is judged by.
#![tactic(auto)]
