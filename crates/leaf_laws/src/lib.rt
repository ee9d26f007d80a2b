// No code: the headline laws of numbers in groups, digits and keys, countries, rates and charges, stated again in full in proofs/.
// A law that is deleted, or that asks more or says less than it did, leaves this crate not proved.
#![tactic(auto)]
