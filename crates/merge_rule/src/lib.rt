// No code: the entries of a new book as lists, part by part as a merge puts them, and their laws: they are sound, they have the
// statuses after the notice, and how many they are.
#![tactic(auto)]
