// Nodes: the shared list of nodes, which only grows. A point's number is that of the first listed node with its key.
//
// It stands under Numbering, which gives the points of all pieces their numbers, and the list goes on from piece to piece and
// from ring to ring. It is a lent slice of doubles, x and y in turn, whose first `used` places hold nodes; specs/Flat has the
// words for that. A ring's box is known before its first point is sought: the nodes in it are collected (`survey`), and a
// point is looked for among them (`nearby`).

#![tactic(auto)]

ghost use Rattle.std.specs.Prelude.{◌≡◌, ◌+◌, ◌*◌, ◌≤◌, length};
ghost use Rattle.nodes.specs.Flat.{node_in_of};

mod nearby;
mod on_sheet;

pub use nearby::{Collected, MOST_NEARBY, Nearby, RingBox, Span, block_end};
pub use on_sheet::{all_on_sheet, any_of_16_out, any_out, is_on_sheet};
use vector::Point;

// The number of a node: its place in the list.
pub type NodeNumber = u32;

// A node list has no more places than this, so that every place is a number.
pub const MOST_PLACES: usize = 1000000;

// The point in place i of a list of points, x and y in turn: a node, or a snap point that is lent.
pub fn point_at(points: &[f64], i: usize) -> Point
    requires { i * 2 + 2 ≤ length points.now }
    ensures { result ≡ node_in_of points.now i }
{
    Point {
        x: points[i * 2],
        y: points[i * 2 + 1],
    }
}

// A point's number, and how many places are then used.
#[derive(Clone, Copy)]
pub struct Placed {
    pub number: NodeNumber,
    pub used: usize,
}
