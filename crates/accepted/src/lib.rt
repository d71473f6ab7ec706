// What an accepted book is: the laws that say document 01's promises in its reader's words.
#![tactic(auto)]
