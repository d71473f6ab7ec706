// The twelve tours of document 01: specs/Tours.antt has the table and the proof that the definitions yield it.
#![tactic(auto)]
