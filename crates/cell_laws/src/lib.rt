// No code: what a cell of codes names, in laws of the rules alone, in proofs/.
#![tactic(auto)]
