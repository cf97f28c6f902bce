// Cells: what becomes of a piece. Its corners, edge middles and mean become nodes, and its cells are four node numbers each.
//
// It holds the definitions and what is proved of them, and no function: an attempt at a piece is `attempts`, and the retry
// `piece_cells`, both above it. A cell stands in the caller's list as four numbers; specs/Flat has the words for that, and for
// what a function asks of the lists.

#![tactic(auto)]

ghost use Rattle.std.specs.Prelude.{◌≡◌, ◌≤◌, length};

use marks::EdgeMark;
use vector::GridPoint;

// A piece: its points, the marks of its edges, and which of them are edges of the ring.
#[derive(Clone, Copy)]
pub struct Piece<'a> {
    pub points: &'a [GridPoint],
    pub edges: &'a [EdgeMark],
    pub sides: &'a [bool],
    ghost marked: { length edges.now ≡ length points.now },
    ghost sided: { length points.now ≤ length sides.now },
}

// What an attempt at a piece came to: the used nodes, the first cell that fails, and whether a snap was too far.
// Kept: a flag beside the others, since the definition's attempt has it in any case, and this is that record (`tried_of`).
#[derive(Clone, Copy)]
pub struct Tried {
    pub used: usize,
    pub fails: Option<usize>,
    pub far: bool,
}
