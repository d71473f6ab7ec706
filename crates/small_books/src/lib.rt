// Books with at most 4,096 plans (request 2.11): specs/Count.antt has what 'more than m plans' is, without the enumeration, specs/Same.antt that ranking such a
// book by going through its plans gives what ranking gives, Calls.antt which number the call gives when, specs/Example.antt a book of three plans by computation.
#![tactic(auto)]
