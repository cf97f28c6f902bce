// Cuts: what holds of every split: how many corners, pieces and cuts there are, that the areas add up, which cuts are chosen,
// that none runs over a third corner, and where every part, corner and edge comes from.
//
// It has no code. It stands on the definitions of the split; the demands on a divider call cite it, and the code that lays
// the pieces out asks it for their sizes.

#![tactic(auto)]
