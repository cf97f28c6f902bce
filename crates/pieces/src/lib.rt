// Pieces: the pieces of a split ring, laid out in cells one after the other.
//
// It stands between the split and the divider call: each piece is read out of the split's state and subdivided, and its
// cells go into the part of the caller's list that starts where those of the piece before ended. After a failure the
// places that were reserved for the ring's cells are zero. specs/Flat says what is asked, answered and left.

#![tactic(auto)]

ghost use Rattle.std.specs.Prelude.{◌≡◌, List, ℕ, ◌≤◌, ◌<◌, false, length, get_or};
ghost use Rattle.vector.specs.declared.GridPoint.{GridPoint};
ghost use Rattle.parts.specs.Pieces.{piece_in};
ghost use Rattle.nodes.specs.Flat.{over};
ghost use Rattle.nodes.specs.Nearby.{ValidCollected};
ghost use Rattle.cells.specs.Stages.{nodes_of};
ghost use Rattle.cells.specs.Asks.{of_ring};
ghost use Rattle.cells.specs.Rims.{rims_by};
ghost use Rattle.pieces.specs.Flat.{outcome_in, every_mark, asks_in, CanSubdivide, row, row_of, over_from, cells_left_of};

use cells::Piece;
use marks::MarkedRing;
use nodes::{Collected, NodeNumber};
use parts::{PartList, Vertex};
use vector::MOST_POINTS;

// The count of nodes, and of the cells that all pieces have.
#[derive(Clone, Copy)]
pub struct Laid {
    pub nodes: usize,
    pub cells: usize,
}

// The corners of the piece that failed and its first cell that fails, and the count of nodes, which stay.
#[derive(Clone, Copy)]
pub struct FailedPiece {
    pub corners: usize,
    pub k: usize,
    pub nodes: usize,
}

// Which edges of piece i are edges of the ring: the diagonal of a cut is straight by its number.
fn piece_sides(pieces: &PartList, i: usize) -> [bool; MOST_POINTS]
    requires { i < pieces.now.count }
    ensures { (ring : List GridPoint) (j : ℕ) → get_or result j false ≡ of_ring (piece_in ring every_mark pieces.now i) j }
{
    let mut out = [false; MOST_POINTS];
    // Kept: the place is counted, since the library doesn't say what a list holds after its places were lent by `iter_mut().zip(..)`
    // (tried). `std::array::from_fn` would ask of each of the 60 places whether the piece has a corner there, no plainer, and takes 466
    // instructions for 72.
    for (j, c) in pieces.part(i).iter().enumerate() {
        out[j] = c.edge < Vertex::STRAIGHT;
    }
    out
}

// The pieces over the first `used` nodes, of which those nearby were collected; their cells over the places from `first` on.
// After a failure `reserve` places from there on are zero.
pub fn subdivide_all(
    nodes: &mut [f64],
    used: usize,
    rims: &mut [u8],
    cells: &mut [NodeNumber],
    first: usize,
    reserve: usize,
    ring: &MarkedRing,
    pieces: &PartList,
    share: f64,
    found: Collected<'_>,
) -> Result<Laid, FailedPiece>
    requires { CanSubdivide share nodes.old used cells.old first reserve ring.now.ring.points ring.now.edges pieces.now
        × (length (nodes_of (outcome_in share nodes.old used ring.now.ring.points ring.now.edges pieces.now)) ≤ length rims.old)
        × ValidCollected nodes.old used found }
    ensures { (row result ≡ row_of (outcome_in share nodes.old used ring.now.ring.points ring.now.edges pieces.now))
        × (nodes.new ≡ over nodes.old (nodes_of (outcome_in share nodes.old used ring.now.ring.points ring.now.edges pieces.now)))
        × (cells.new ≡ over_from cells.old first (cells_left_of reserve
        (outcome_in share nodes.old used ring.now.ring.points ring.now.edges pieces.now)))
        × (rims.new ≡ rims_by used (length (nodes_of (outcome_in share nodes.old used ring.now.ring.points ring.now.edges pieces.now)))
        (asks_in share nodes.old used ring.now.ring.points ring.now.edges pieces.now) rims.old) }
{
    let mut u = used;
    let mut at = first;
    // Kept: a piece goes by its number, which `piece_points` and `piece_marks` take. Going over the parts would want an iterator of its
    // own, with what `next` gives, for this loop alone.
    for i in 0..pieces.count {
        let corners = parts::piece_points(&ring.ring.points, pieces, i);
        let marks = parts::piece_marks(&ring.edges, pieces, i);
        let sides = piece_sides(pieces, i);
        let n = corners.count;
        let piece = Piece {
            points: &corners.points[..n],
            edges: &marks[..n],
            sides: &sides,
        };
        let start = at * 4;
        let t = piece_cells::subdivide(nodes, u, rims, &mut cells[start..], &piece, share, found);
        if let Some(k) = t.fails {
            let from = first * 4;
            cells[from..from + reserve * 4].fill(0);
            return Err(FailedPiece {
                corners: n,
                k,
                nodes: t.used,
            });
        }
        u = t.used;
        at += n;
    }
    Ok(Laid {
        nodes: u,
        cells: at - first,
    })
}
