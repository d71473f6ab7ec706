// A model by its content: definitions and laws in specs/, no code.
#![tactic(auto)]
