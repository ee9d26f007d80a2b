// No code: the worked examples P1 to P11 of document 01, checked against the rules in proofs/.
#![tactic(auto)]
