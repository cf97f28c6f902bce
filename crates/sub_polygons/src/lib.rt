// Sub polygons: the two parts that a diagonal makes of a part, over the numbers of its corners.
//
// It stands between parts, whose lists of numbers these are, and the split, which makes two parts of one until none has a bad
// corner. The definitions are those of parts.

#![tactic(auto)]

ghost use Rattle.std.specs.Prelude.{◌≡◌, List, ◌+◌, ◌-◌, ◌^◌, ◌≤◌, ◌<◌, length, take, drop, replicate};
ghost use Rattle.laws.specs.Table.{tab};
ghost use Rattle.vector.specs.Size.{AllOnSheet};
ghost use Rattle.vector.specs.Rings.{most_points};
ghost use Rattle.marks.specs.declared.EdgeMark.{EdgeMark};
ghost use Rattle.parts.specs.Cut as Cut;
ghost use Rattle.parts.specs.Vertices.{vertex, blank, corner_point, edge_at, straight_number, closing, backward, part_of, corner_points, part_with};

use parts::{RingPart, Vertex};
use vector::{GridPoint, MOST_POINTS};

// A part that a cut makes, its corners in the first places and the others blank, and the doubled area that was turned round in
// making it.
// Kept: an array with a count beside, in fixed memory.
#[derive(Clone, Copy)]
pub struct SubPolygon {
    pub corners: [Vertex; MOST_POINTS],
    pub count: usize,
    pub turned: u64,
}

impl SubPolygon {
    // The corners alone.
    pub fn as_slice(&self) -> &[Vertex]
        requires { self.now.count ≤ length self.now.corners }
        ensures { (result.now ≡ take self.now.count self.now.corners) × (length result.now ≡ self.now.count) }
    {
        &self.corners[..self.count]
    }
}

// The first m of the corners, counted round from corner v. The last edge, the diagonal, is straight.
fn segment(vs: &[Vertex], v: usize, m: usize) -> [Vertex; MOST_POINTS]
    requires { (length vs.now ≤ most_points) × (v < length vs.now) × (1 ≤ m) × (m ≤ length vs.now) }
    ensures { (take m result ≡ tab (closing vs.now (length vs.now) v m) m) × (drop m result ≡ replicate (most_points - m) blank) }
{
    let mut out = [Vertex::BLANK; MOST_POINTS];
    let ahead = m.min(vs.len() - v);
    vector::copy(&vs[v..v + ahead], &mut out[..ahead]);
    vector::copy(&vs[..m - ahead], &mut out[ahead..m]);
    out[m - 1].edge = Vertex::STRAIGHT;
    out
}

// The corners the other way round. Each keeps the edge that now starts there; the last edge is straight.
fn reversed(vs: &[Vertex]) -> [Vertex; MOST_POINTS]
    requires { (1 ≤ length vs.now) × (length vs.now ≤ most_points) }
    ensures { (take (length vs.now) result ≡ tab (backward vs.now (length vs.now)) (length vs.now))
        × (drop (length vs.now) result ≡ replicate (most_points - length vs.now) blank) }
{
    let mut out = [Vertex::BLANK; MOST_POINTS];
    let before = vs.iter().rev().skip(1);
    // Kept: the place is counted, since the library doesn't say what a list holds after its places were lent by `iter_mut().zip(..)`
    // (tried); counted places for `iter_mut().enumerate()` would want two counted corners, at m - 1 - i and m - 2 - i.
    for (i, (a, b)) in vs.iter().rev().zip(before).enumerate() {
        out[i] = Vertex {
            at: a.at,
            edge: b.edge,
        };
    }
    out[vs.len() - 1] = Vertex {
        at: vs[0].at,
        edge: Vertex::STRAIGHT,
    };
    out
}

// The part of m corners that end with the diagonal, turned round if their area is negative.
// Kept: the corners go in by value, since they are moved into the part that is returned; lent, they would be copied.
// The ring, the corners and m one by one: a RingPart would lend the corners, which are moved here.
fn make_sub_polygon(
    ring: &[GridPoint; MOST_POINTS],
    vs: [Vertex; MOST_POINTS],
    m: usize,
) -> SubPolygon
    requires { (3 ≤ m) × (m ≤ most_points) × AllOnSheet ring.now × ((vertex vs (m - 1)).edge ≡ straight_number)
        × (drop m vs ≡ replicate (most_points - m) blank) }
    ensures { ((es : List EdgeMark) → length es ≡ most_points → part_of ring.now es result.corners m ≡ Cut.make_sub_polygon (tab (corner_point ring.now vs) m)
        (tab (edge_at es vs) (m - 1)))
        × (result.turned ≡ Cut.turned_area (tab (corner_point ring.now vs) m)) × (result.turned ≤ 2 ^ 53) × (result.count ≡ m)
        × (drop m result.corners ≡ replicate (most_points - m) blank) }
{
    let part = RingPart {
        ring,
        corners: &vs[..m],
    };
    let area = vector::polygon_area(part.rotated_points(0).as_slice());
    if 0 <= area {
        return SubPolygon {
            corners: vs,
            count: m,
            turned: 0,
        };
    }
    SubPolygon {
        corners: reversed(part.corners),
        count: m,
        turned: area.unsigned_abs(),
    }
}

// The part of the corners from corner v to the place k after it.
pub fn first_part(part: &RingPart<'_>, v: usize, k: usize) -> SubPolygon
    requires { (v < length part.now.corners.now) × (2 ≤ k) × (k + 2 ≤ length part.now.corners.now) }
    ensures { ((es : List EdgeMark) → length es ≡ most_points
        → part_of part.now.ring.now es result.corners (k + 1) ≡ Cut.first_part (part_with part.now es) v k)
        × (result.turned ≡ Cut.turned_area (Cut.first_points (Cut.rotate v (corner_points part.now)) k))
        × (result.turned ≤ 2 ^ 53) × (result.count ≡ k + 1)
        × (drop (k + 1) result.corners ≡ replicate (most_points - (k + 1)) blank) }
{
    make_sub_polygon(part.ring, segment(part.corners, v, k + 1), k + 1)
}

// The part from there on, back to corner v.
pub fn second_part(part: &RingPart<'_>, v: usize, k: usize) -> SubPolygon
    requires { (v < length part.now.corners.now) × (2 ≤ k) × (k + 2 ≤ length part.now.corners.now) }
    ensures { ((es : List EdgeMark) → length es ≡ most_points
        → part_of part.now.ring.now es result.corners (length part.now.corners.now - k + 1) ≡ Cut.second_part (part_with part.now es) v k)
        × (result.turned ≡ Cut.turned_area (Cut.second_points (Cut.rotate v (corner_points part.now)) k))
        × (result.turned ≤ 2 ^ 53) × (result.count ≡ length part.now.corners.now - k + 1)
        × (drop (length part.now.corners.now - k + 1) result.corners ≡ replicate (most_points - (length part.now.corners.now - k + 1)) blank) }
{
    let n = part.corners.len();
    let start = (v + k) % n;
    make_sub_polygon(
        part.ring,
        segment(part.corners, start, n - k + 1),
        n - k + 1,
    )
}
