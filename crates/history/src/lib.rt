// The plain machine of document 01 and the claim over every history: definitions and theorems. Beside them the answer of an
// apply, which both speak of.
#![tactic(auto)]

// What an accepted apply answers: the new book's entries, last received day and latest effective day.
#[derive(Clone, Copy, PartialEq, Eq)]
pub struct Applied {
    pub entries: u64,
    pub received: u64,
    pub latest: u64,
}
