// Request 2.4, "After any calls on an opened desk": specs/Calls.antt has the calls as data, specs/Order.antt what each call keeps, proofs/Calls.antt and proofs/Laws.antt the laws, specs/Monday.antt a table of calls.
#![tactic(auto)]
