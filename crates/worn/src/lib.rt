// Worn: that the record of wear follows the rings of divider calls, whichever entry they came by.
//
// It has no code. It stands on wear and on demand 3, by which an accepted call has at most 32 cuts: its answer is never 20, and
// the record has the last 32 accepted rings.

#![tactic(auto)]
