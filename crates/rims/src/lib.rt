// Rims: which edges of a piece are ring edges, so that their middles are on the rim. The ring with each of its edges marked
// is split into the same pieces as the ring itself, and an edge is marked there exactly if it is one of the ring's: the
// others are the diagonals of the cuts.
//
// It has no code. It stands on the definitions of the split and of what nodes are asked for, by which every entry sets the
// marks. The claim that the practice paper divides alike stands on it.

#![tactic(auto)]
