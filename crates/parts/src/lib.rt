// Parts: a part of a ring as a list of numbers, and parts one after the other.
//
// It stands under the split, whose stack and pieces are such lists; the two parts that a diagonal makes are `sub_polygons`. The
// ring's points and the marks of its edges are held once, outside; a part has two bytes a corner, so that the whole state of the
// split is 608 bytes. specs/Vertices and specs/Layout say how numbers are read back as parts.

#![tactic(auto)]

ghost use Rattle.std.specs.Prelude.{◌≡◌, List, ℕ, ◌+◌, ◌%◌, ◌≤◌, ◌<◌, length, get_or, take};
ghost use Rattle.laws.specs.Table.{tab};
ghost use Rattle.vector.specs.declared.GridPoint.{GridPoint};
ghost use Rattle.vector.specs.Grid.{origin};
ghost use Rattle.vector.specs.Size.{AllOnSheet};
ghost use Rattle.vector.specs.Rings.{most_points, points_of, OnSheetRing};
ghost use Rattle.marks.specs.declared.EdgeMark.{EdgeMark};
ghost use Rattle.marks.specs.declared.EdgeMark.TheVariants.{Straight};
ghost use Rattle.parts.specs.Vertices.{corner_point};
ghost use Rattle.parts.specs.Layout as Layout;
ghost use Rattle.parts.specs.Pieces.{piece_in};

mod list;

pub use list::{PartList, RingPart, Vertex};
use marks::EdgeMark;
use vector::{GridPoint, MOST_POINTS, Ring};

impl PartList {
    // The corners of part j.
    pub fn part(&self, j: usize) -> &[Vertex]
        requires { j < self.now.count }
        ensures corners { result.now ≡ Layout.corners_of self.now j }
        ensures size { (length result.now ≡ Layout.size self.now j) × (3 ≤ length result.now) × (length result.now ≤ most_points) }
    {
        let a = usize::from(self.ends[j]);
        let b = usize::from(self.ends[j + 1]);
        &self.corners[a..b]
    }

    // One part more.
    pub fn push(&mut self, ps: &[Vertex])
        requires { (self.old.count < 33) × (3 ≤ length ps.now) × (length ps.now ≤ most_points)
            × (Layout.end self.old self.old.count + length ps.now ≤ 124) }
        ensures { Layout.Pushed self.old ps.now (length ps.now) self.new }
    {
        let a = usize::from(self.ends[self.count]);
        let b = a + ps.len();
        vector::copy(ps, &mut self.corners[a..b]);
        self.count += 1;
        self.ends[self.count] = b as u8;
    }
}

impl RingPart<'_> {
    // The points of the corners, counted from corner v, in the first places. The places after them are zero.
    pub fn rotated_points(&self, v: usize) -> Ring
        requires { v < length self.now.corners.now }
        ensures { (points_of result ≡ tab (λ i. corner_point self.now.ring.now self.now.corners.now ((v + i) % length self.now.corners.now))
            (length self.now.corners.now))
            × OnSheetRing result × (result.count ≡ length self.now.corners.now)
            × ((j : ℕ) → result.count ≤ j → get_or result.points j origin ≡ origin) }
    {
        let vs = self.corners;
        let mut out = Ring {
            points: [GridPoint::ORIGIN; MOST_POINTS],
            count: vs.len(),
        };
        // Kept: the place is counted. `for (place, c) in out.points.iter_mut().zip(..)` was tried, and its promise doesn't close: the
        // library says what a place that an adapter lends holds before the turn, and not what the list holds after the loop. Over the
        // places alone, by `enumerate`, the corner would be counted.
        for (i, c) in vs[v..].iter().chain(&vs[..v]).enumerate() {
            out.points[i] = self.ring[usize::from(c.at)];
        }
        out
    }
}

// The points of piece i, and the marks of its edges, in the first places. The places after them are zero, and straight.
// Kept: two readings. One of both takes 992 bytes more of the program's stack, for 0.5 to 1.4 % fewer instructions
// (docs/DECISIONS.md): the memory comes first.
pub fn piece_points(ring: &[GridPoint; MOST_POINTS], pieces: &PartList, i: usize) -> Ring
    requires { (i < pieces.now.count) × AllOnSheet ring.now }
    ensures { ((es : List EdgeMark) → points_of result ≡ (piece_in ring.now es pieces.now i).points) × OnSheetRing result
        × (result.count ≡ Layout.size pieces.now i) × (3 ≤ result.count)
        × ((j : ℕ) → result.count ≤ j → get_or result.points j origin ≡ origin) }
{
    let part = RingPart {
        ring,
        corners: pieces.part(i),
    };
    part.rotated_points(0)
}

#[tactic(auto, using(crate::proofs::Pieces::marks_are))]
pub fn piece_marks(
    marks: &[EdgeMark; MOST_POINTS],
    pieces: &PartList,
    i: usize,
) -> [EdgeMark; MOST_POINTS]
    requires { i < pieces.now.count }
    ensures { ((ring : List GridPoint) → take (Layout.size pieces.now i) result ≡ (piece_in ring marks.now pieces.now i).edges)
        × ((j : ℕ) → Layout.size pieces.now i ≤ j → get_or result j Straight ≡ Straight) }
{
    let mut out = [EdgeMark::Straight; MOST_POINTS];
    // Kept: the place is counted, as above. `std::array::from_fn` would ask of each of the 60 places whether the piece has a corner
    // there, no plainer, and takes 660 instructions more a piece.
    for (j, c) in pieces.part(i).iter().enumerate() {
        let mark = marks.get(usize::from(c.edge));
        out[j] = mark.copied().unwrap_or(EdgeMark::Straight);
    }
    out
}
