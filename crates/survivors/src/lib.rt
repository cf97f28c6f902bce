// Survivors: which marks of a ring's edges survive cleaning, and that each stays on its edge.
//
// It has no code. It stands on clean, whose kept places it asks; where the marks are given, the marks of the cleaned ring are laid by
// it (given).

#![tactic(auto)]
