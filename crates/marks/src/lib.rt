// Marks: the edges of the cleaned ring that run along the drawn chain, each with the point it snaps to.
//
// They stand between the simplified chain and the split, which moves them with their edges; the cells take the snap
// points as edge middles.

#![tactic(auto)]

ghost use Rattle.std.specs.Prelude.{◌≡◌, [], ◌∷◌, ◌≤◌, ◌<◌, length, eqb};
ghost use Rattle.laws.specs.Bounded.{first, below};
ghost use Rattle.vector.specs.declared.Point.{Point};
ghost use Rattle.vector.specs.Rings.{OnSheetPoints};
ghost use Rattle.chain.specs.Stretches.{stretch_in, stretches_in};
ghost use Rattle.marks.specs.Part.{mark_count};
ghost use Rattle.marks.specs.Marks as Marks;
ghost use Rattle.marks.specs.Edges.{Marked, part_in, ValidMarkedRing};

use chain::Simplified;
use vector::{GridPoint, MOST_POINTS, Point, Ring};

// An edge is straight, or carries the point it snaps to.
// Kept: no Option<Point>: the specification names the form, "Straight, or Snap holding the two doubles of the point".
#[derive(Clone, Copy)]
pub enum EdgeMark {
    Straight,
    Snap(Point),
}

// A ring with the marks of its edges, one for each point: what is split and laid out, wherever the marks came from.
// Kept: the specification names this form ("held beside the ring's points"). A list of pairs would put the 24 bytes of a mark between
// two points for the area, the test of crossings and the diagonals, which take a list of points.
#[derive(Clone, Copy)]
pub struct MarkedRing {
    pub ring: Ring,
    pub edges: [EdgeMark; MOST_POINTS],
}

// Stretch j of the simplified chain joins a and b, in either sense.
fn joins(chain: &Simplified, j: usize, a: GridPoint, b: GridPoint) -> bool
    requires { (chain.now.count ≤ 59) × (j < chain.now.count) }
    ensures { result ≡ Marks.joins a b (stretch_in chain.now.points chain.now.snaps j) }
{
    let p = chain.points[j];
    let q = chain.points[j + 1];
    p == a && q == b || p == b && q == a
}

// The number of the first stretch of the simplified chain that joins a and b.
fn stretch_between(chain: &Simplified, a: GridPoint, b: GridPoint) -> Option<usize>
    requires { chain.now.count ≤ 59 }
    ensures { result ≡ below chain.now.count (first (λ j. Marks.joins a b (stretch_in chain.now.points chain.now.snaps j)) chain.now.count 0) }
{
    (0..chain.count).find(
        |&j|
            requires { (chain.now.count ≤ 59) × (j < chain.now.count) }
        { joins(chain, j, a, b) },
    )
}

// The marks of the ring along the simplified chain.
pub fn mark_edges(ring: &[GridPoint], chain: &Simplified) -> [EdgeMark; MOST_POINTS]
    requires { OnSheetPoints ring.now × (chain.now.count ≤ 59) }
    ensures { Marked (stretches_in chain.now) ring.now (length ring.now) result }
{
    let mut edges = [EdgeMark::Straight; MOST_POINTS];
    // Kept: a turn looks at a point, at the next one round the ring and at the edge's place, which is the point's.
    for (i, &a) in ring.iter().enumerate() {
        let b = ring[vector::next(i, ring.len())];
        if let Some(j) = stretch_between(chain, a, b) {
            edges[i] = EdgeMark::Snap(chain.snaps[j]);
        }
    }
    edges
}

fn is_marked(m: EdgeMark) -> bool
    ensures { result ≡ eqb (mark_count (m ∷ [])) 1 }
{
    matches!(m, EdgeMark::Snap(_))
}

// How many of the ring's edges are marked.
pub fn mark_count(ring: &MarkedRing) -> usize
    requires { ValidMarkedRing ring.now }
    ensures { (result ≡ mark_count (part_in ring.now).edges) × (result ≤ ring.now.ring.count) }
{
    let edges = &ring.edges[..ring.ring.count];
    edges.iter().filter(|&&m| is_marked(m)).count()
}
