// The nodes of a piece: its corners and the middles of its edges added to the node list, and their numbers.
//
// It stands under Cells, between Numbering and an attempt at a piece: the corners come first, then the middles of the listed
// ends. specs/Adding has the words for what a function asks of the lent list, and for what it leaves there.

#![tactic(auto)]

ghost use Rattle.std.specs.Prelude.{◌≡◌, length};
ghost use Rattle.laws.specs.Bounded.{any};
ghost use Rattle.vector.specs.Rings.{most_points};
ghost use Rattle.nodes.specs.Nearby.{ValidCollected};
ghost use Rattle.quads.specs.Flat.{ListedTo};
ghost use Rattle.piece_nodes.specs.Adding.{CanAdd, Adds, corner_at, middle_at, far_at};

use marks::EdgeMark;
use nodes::{Collected, NodeNumber};
use vector::{GridPoint, Point};

// What adding edge middles came to: the used nodes, and whether a snap was too far.
// Kept: a count and a flag, which hold in any case, so neither is an Option.
#[derive(Clone, Copy)]
pub struct MiddlesAdded {
    pub used: usize,
    pub far: bool,
}

// Adds the corners of a piece, and puts their numbers into a list. So many nodes are then used.
pub fn add_corners(
    nodes: &mut [f64],
    used: usize,
    points: &[GridPoint],
    found: Collected<'_>,
    list: &mut [NodeNumber],
) -> usize
    requires { CanAdd nodes.old used (corner_at points.now) (length points.now)
        × ValidCollected nodes.old used found × (length list.old ≡ most_points) }
    ensures { Adds nodes.old used (corner_at points.now) (length points.now) list.old nodes.new result list.new }
{
    let mut at = used;
    // Kept: the place is counted, since the library doesn't say what a list holds after its places were lent by `iter_mut().zip(..)`;
    // over the places alone, by `enumerate`, the point would be counted.
    for (i, p) in points.iter().enumerate() {
        let r = numbering::add_node(nodes, at, Point::new(*p), found);
        list[i] = r.number;
        at = r.used;
    }
    at
}

// The same of the middles. They are those of the listed ends, whose numbers are vs.
pub fn add_middles(
    nodes: &mut [f64],
    used: usize,
    vs: &[NodeNumber],
    marks: &[EdgeMark],
    share: f64,
    found: Collected<'_>,
    list: &mut [NodeNumber],
) -> MiddlesAdded
    requires { CanAdd nodes.old used (middle_at share nodes.old used vs.now marks.now (length vs.now)) (length vs.now)
        × ListedTo used vs.now (length vs.now) × (length marks.now ≡ length vs.now)
        × ValidCollected nodes.old used found × (length list.old ≡ most_points) }
    ensures { Adds nodes.old used (middle_at share nodes.old used vs.now marks.now (length vs.now)) (length vs.now) list.old
        nodes.new result.used list.new
        × (result.far ≡ any (far_at share nodes.old used vs.now marks.now (length vs.now)) (length vs.now)) }
{
    let mut at = used;
    let mut far = false;
    // Kept: a turn looks at an edge's mark and at the numbers of both its ends, the second the next one round the piece.
    for (i, &mark) in marks.iter().enumerate() {
        let j = vector::next(i, vs.len());
        let a = quads::node_at(nodes, vs[i]);
        let b = quads::node_at(nodes, vs[j]);
        let m = quads::edge_middle(mark, a, b, share);
        let r = numbering::add_node(nodes, at, m.at, found);
        list[i] = r.number;
        at = r.used;
        far |= m.far;
    }
    MiddlesAdded { used: at, far }
}
