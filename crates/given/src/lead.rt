// Lead: an outline as it is sought.

ghost use Rattle.std.specs.Prelude.{◌≤◌, take};
ghost use Rattle.vector.specs.Rings.{most_points};
ghost use Rattle.outline.specs.Outline.{total};

use vector::{GridPoint, MOST_POINTS};

// An outline as it is sought: the points of its loops one after the other, and how many each of the first count loops has.
// Kept: both lists are arrays, and that of the loops has its count beside it, since there is no heap.
#[derive(Clone, Copy)]
pub struct LeadLine {
    pub points: [GridPoint; MOST_POINTS],
    pub loops: [usize; 20],
    pub count: usize,
    ghost few: { count ≤ 20 },
    ghost fits: { total (take count loops) ≤ most_points },
}
