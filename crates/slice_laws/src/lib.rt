// No code: laws of parts of a slice, as the code of other crates takes and stores them.
#![tactic(auto)]
