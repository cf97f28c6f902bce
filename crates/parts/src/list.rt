// A corner, a part and a list of parts, in a file of their own: a struct with a ghost field stands on all that the clauses of its file cite.

ghost use Rattle.std.specs.Prelude.{ℕ, suc, ◌+◌, ◌≤◌, ◌<◌, length, get_or};
ghost use Rattle.vector.specs.Rings.{most_points};
ghost use Rattle.vector.specs.Size.{AllOnSheet};

use vector::{GridPoint, MOST_POINTS};

// A corner of a part: the number of its point among the ring's, and that of the mark of the edge that starts there.
// Kept: no Option<u8> for the edge, which takes two bytes, so a corner would take three. The state of the split, two lists of 124
// corners, would take 848 bytes for 608, and a part of 60 corners 60 more, of the 64 kilobytes that a call has (docs/BENCHMARKS.md).
#[derive(Clone, Copy)]
pub struct Vertex {
    pub at: u8,
    pub edge: u8,
    pub ghost below: { at < most_points },
}

impl Vertex {
    // The number of a straight edge: the first that is no edge of the ring's.
    pub const STRAIGHT: u8 = 60;

    // What an unused place holds.
    pub const BLANK: Vertex = Vertex {
        at: 0,
        edge: Vertex::STRAIGHT,
    };
}

// A part of a ring: the ring's points, and the part's corners, which are numbers of them.
#[derive(Clone, Copy)]
pub struct RingPart<'a> {
    pub ring: &'a [GridPoint; MOST_POINTS],
    pub corners: &'a [Vertex],
    ghost few: { length corners.now ≤ most_points },
    ghost sheet: { AllOnSheet ring.now },
}

// Parts one after the other: part j has the corners from ends[j] to ends[j + 1], three or more and no more than 60. No more than
// 33 parts and 124 corners are ever held.
// Kept: arrays with a count beside, in fixed memory.
#[derive(Clone, Copy)]
pub struct PartList {
    pub corners: [Vertex; 124],
    pub ends: [u8; 34],
    pub count: usize,
    pub ghost few: { count ≤ 33 },
    pub ghost step: { (j : ℕ) → j < count → (get_or ends j 0 + 3 ≤ get_or ends (suc j) 0) × (get_or ends (suc j) 0 ≤ get_or ends j 0 + most_points) },
    pub ghost fits: { get_or ends count 0 ≤ 124 },
}

impl PartList {
    // No part.
    pub const EMPTY: PartList = PartList {
        corners: [Vertex::BLANK; 124],
        ends: [0; 34],
        count: 0,
    };
}
