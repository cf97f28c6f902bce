// Quads: what one edge and one cell are: the middle of an edge, the mean of the corners, and a cell's four numbers.
//
// It stands under Cells, which makes a piece's corners, middles and mean nodes and asks here where they lie. Laying the cells
// round a centre into a list is `laid_cells`, and the two tests of a cell are `cell_tests`, both above it: the definitions of
// all three are here. A cell stands in the caller's list as four numbers; specs/Flat has the words for that.

#![tactic(auto)]

ghost use Rattle.std.specs.Prelude.{◌≡◌, ℕ, ◌+◌, ◌*◌, ◌≤◌, ◌<◌, length, get_or};
ghost use Rattle.nodes.specs.Flat.{node_in_of};
ghost use Rattle.quads.specs.Quads as Quads;
ghost use Rattle.quads.specs.Quads.{no_cell};
ghost use Rattle.quads.specs.Flat.{middle_of, four};

use marks::EdgeMark;
use nodes::NodeNumber;
use vector::Point;

// Four node numbers.
#[repr(C)]
#[derive(Clone, Copy)]
pub struct Cell {
    pub a: NodeNumber,
    pub b: NodeNumber,
    pub c: NodeNumber,
    pub d: NodeNumber,
}

impl From<Cell> for [NodeNumber; 4] {
    ghost from_gives = { λ c ns. ns ≡ four c };

    fn from(c: Cell) -> [NodeNumber; 4] {
        [c.a, c.b, c.c, c.d]
    }
}

impl From<[NodeNumber; 4]> for Cell {
    ghost from_gives = { λ ns c. ns ≡ four c };

    fn from([a, b, c, d]: [NodeNumber; 4]) -> Cell {
        Cell { a, b, c, d }
    }
}

// The nodes of a piece: its centre, and the middles of its edges and its corners in order, as many.
#[derive(Clone, Copy)]
pub struct Round<'a> {
    pub centre: NodeNumber,
    pub middles: &'a [NodeNumber],
    pub corners: &'a [NodeNumber],
    ghost few: { length middles.now ≤ 60 },
    ghost as_many: { length corners.now ≡ length middles.now },
}

impl Round<'_> {
    ghost use Rattle.quads.specs.Round.{cells_of};

    // Cell k: centre, middle k, corner k + 1, middle k + 1.
    #[tactic(auto, using(crate::proofs::CellList::cell_at))]
    pub fn cell(&self, k: usize) -> Cell
        requires { k < length self.now.middles.now }
        ensures { result ≡ get_or (cells_of self.now) k no_cell }
    {
        let next = vector::next(k, self.middles.len());
        Cell {
            a: self.centre,
            b: self.middles[k],
            c: self.corners[next],
            d: self.middles[next],
        }
    }
}

// Where the middle of an edge goes, and whether its snap point was too far.
// Kept: a point and a flag, since both are read in both cases: the point is a node, and the flag is gathered over the edges.
#[derive(Clone, Copy)]
pub struct Middle {
    pub at: Point,
    pub far: bool,
}

// A straight middle.
pub fn halfway(a: Point, b: Point) -> Point
    ensures { result ≡ Quads.middle a b }
{
    Point {
        x: 0.5 * (a.x + b.x),
        y: 0.5 * (a.y + b.y),
    }
}

// A snap point is taken where it is no farther from the straight middle than this share of the chord.
#[tactic(auto, unfolding(crate::specs::Quads::edge_middle, crate::specs::Quads::too_far))]
pub fn edge_middle(m: EdgeMark, a: Point, b: Point, share: f64) -> Middle
    ensures { result ≡ middle_of share m a b }
{
    let c = halfway(a, b);
    match m {
        EdgeMark::Straight => Middle { at: c, far: false },
        EdgeMark::Snap(q) => {
            let d = root::dist(q, c);
            let e = root::dist(a, b);
            if d <= share * e {
                Middle { at: q, far: false }
            } else {
                Middle { at: c, far: true }
            }
        }
    }
}

// A listed node.
pub fn node_at(nodes: &[f64], i: NodeNumber) -> Point
    requires { i * 2 + 2 ≤ length nodes.now }
    ensures { result ≡ node_in_of nodes.now i }
{
    // Kept: `as`, since a usize has no From<u32>.
    nodes::point_at(nodes, i as usize)
}

// The mean of the listed corners, summed from 0.0 in their order.
#[tactic(auto, unfolding(crate::specs::Quads::total))]
pub fn mean(nodes: &[f64], vs: &[NodeNumber]) -> Point
    requires { (0 < length vs.now) × (length vs.now ≤ 60)
        × ((j : ℕ) → j < length vs.now → get_or vs.now j 0 * 2 + 2 ≤ length nodes.now) }
    ensures { result ≡ Quads.mean (λ i. node_in_of nodes.now (get_or vs.now i 0)) (length vs.now) }
{
    let mut x = 0.0;
    let mut y = 0.0;
    for v in vs {
        let p = node_at(nodes, *v);
        x += p.x;
        y += p.y;
    }
    let d = vs.len() as f64;
    Point { x: x / d, y: y / d }
}
