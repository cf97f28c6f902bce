// Trials: the starred rings of the specification and rings for its traps, each with the answer expected.
//
// It has no code. It stands above all layers, so that one table can speak of the whole way of a ring: of a root and a corner,
// of calls over the program's own lists, and of what the program prints for its blocks.

#![tactic(auto)]
