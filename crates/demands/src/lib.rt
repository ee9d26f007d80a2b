// No code: demand 3 with its corollaries, and of demand 2 what notices promise, stated again in full in proofs/. A theorem that is
// deleted, or that asks more or says less than it did, leaves this crate not proved.
#![tactic(auto)]
