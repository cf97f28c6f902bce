// Piece cells: the cells of one piece, by an attempt with its marks and, where that fails, one on straight middles.
//
// It is the last step in the way of a ring: pieces calls it for each piece that the split leaves. The attempts are those of
// `attempts`, and the definitions those of Cells.

#![tactic(auto)]

ghost use Rattle.std.specs.Prelude.{◌≡◌, ◌*◌, ◌≤◌, length};
ghost use Rattle.nodes.specs.Flat.{over};
ghost use Rattle.nodes.specs.Nearby.{ValidCollected};
ghost use Rattle.quads.specs.Flat.{over_cells};
ghost use Rattle.cells.specs.Rims.{rims_by};
ghost use Rattle.cells.specs.Flat.{CanSubdividePiece, part_of, subdivide_in, tried_of, subdivide_asks_in};

use cells::{Piece, Tried};
use marks::EdgeMark;
use nodes::{Collected, NodeNumber};
use vector::MOST_POINTS;

// A piece: the attempt with its marks, and where a cell fails with no snap too far, one on straight middles.
pub fn subdivide(
    nodes: &mut [f64],
    used: usize,
    rims: &mut [u8],
    cells: &mut [NodeNumber],
    piece: &Piece<'_>,
    share: f64,
    found: Collected<'_>,
) -> Tried
    requires { CanSubdividePiece share nodes.old used (part_of piece.now) × (length piece.now.points.now * 4 ≤ length cells.old)
        × ValidCollected nodes.old used found
        × (length (subdivide_in share nodes.old used (part_of piece.now)).nodes ≤ length rims.old) }
    ensures { (result ≡ tried_of (subdivide_in share nodes.old used (part_of piece.now)))
        × (nodes.new ≡ over nodes.old (subdivide_in share nodes.old used (part_of piece.now)).nodes)
        × (cells.new ≡ over_cells cells.old (subdivide_in share nodes.old used (part_of piece.now)).cells)
        × (rims.new ≡ rims_by used (length (subdivide_in share nodes.old used (part_of piece.now)).nodes)
        (subdivide_asks_in share nodes.old used (part_of piece.now) piece.now.sides.now) rims.old) }
{
    let t = attempts::attempt(nodes, used, rims, cells, piece, share, found);
    if t.fails.is_none() {
        return t;
    }
    if t.far {
        return t;
    }
    let straight = [EdgeMark::Straight; MOST_POINTS];
    let n = piece.points.len();
    // Kept: `..*piece` is refused, since the struct has ghost fields.
    let plain = Piece {
        points: piece.points,
        edges: &straight[..n],
        sides: piece.sides,
    };
    attempts::attempt(nodes, t.used, rims, cells, &plain, share, found)
}
