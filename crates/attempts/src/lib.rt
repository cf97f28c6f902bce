// Attempts: one attempt at a piece. Its corners, edge middles and mean become nodes, and its cells go into the list.
//
// The pieces of the split come here one after the other, over the shared node list, and their cells go into the part of the
// caller's cell list that starts after those already there. The definitions are those of Cells; the retry is `piece_cells`.

#![tactic(auto)]

ghost use Rattle.std.specs.Prelude.{◌≡◌, ◌*◌, ◌≤◌, length};
ghost use Rattle.nodes.specs.Flat.{over};
ghost use Rattle.nodes.specs.Nearby.{ValidCollected};
ghost use Rattle.quads.specs.Flat.{over_cells};
ghost use Rattle.cells.specs.Rims.{rims_by};
ghost use Rattle.cells.specs.Flat.{CanTry, part_of, attempt_in, tried_of, attempt_asks_in};

use cells::{Piece, Tried};
use nodes::{Collected, NodeNumber};
use quads::Round;
use vector::MOST_POINTS;

// One attempt: the piece's nodes are added and all its cells are put, also where one fails. The retry puts its own over
// the same places, so no cell of an abandoned attempt is left.
pub fn attempt(
    nodes: &mut [f64],
    used: usize,
    rims: &mut [u8],
    cells: &mut [NodeNumber],
    piece: &Piece<'_>,
    share: f64,
    found: Collected<'_>,
) -> Tried
    requires { CanTry share nodes.old used (part_of piece.now) × (length piece.now.points.now * 4 ≤ length cells.old)
        × ValidCollected nodes.old used found
        × (length (attempt_in share nodes.old used (part_of piece.now)).nodes ≤ length rims.old) }
    ensures { (result ≡ tried_of (attempt_in share nodes.old used (part_of piece.now)))
        × (nodes.new ≡ over nodes.old (attempt_in share nodes.old used (part_of piece.now)).nodes)
        × (cells.new ≡ over_cells cells.old (attempt_in share nodes.old used (part_of piece.now)).cells)
        × (rims.new ≡ rims_by used (length (attempt_in share nodes.old used (part_of piece.now)).nodes)
        (attempt_asks_in share nodes.old used (part_of piece.now) piece.now.sides.now) rims.old) }
{
    let n = piece.points.len();
    let mut first = [0; MOST_POINTS];
    let u = piece_nodes::add_corners(nodes, used, piece.points, found, &mut first);
    let corners = &first[..n];
    let mut second = [0; MOST_POINTS];
    let m = piece_nodes::add_middles(nodes, u, corners, piece.edges, share, found, &mut second);
    let middles = &second[..n];
    let p = quads::mean(nodes, corners);
    let z = numbering::add_node(nodes, m.used, p, found);
    let round = Round {
        centre: z.number,
        middles,
        corners,
    };
    laid_cells::put_cells(cells, &round);
    rim_marks::mark_rims(rims, used, z.used, &round, piece.sides);
    let fails = cell_tests::first_failing(nodes, z.used, &round);
    Tried {
        used: z.used,
        fails,
        far: m.far,
    }
}
