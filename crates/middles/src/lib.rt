// Middles: no cut has a loose middle. Of every accepted ring, whichever entry it came by and whatever the set of limits: the
// cells on both sides of a cut have one node number for its middle, and the same two numbers for its ends.
//
// It has no code. It stands on the definitions of the call and on demand 3, and every entry answers by these; no crate that
// runs stands on it.

#![tactic(auto)]
