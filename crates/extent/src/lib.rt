// Extent: the box of a ring, in which nodes are collected for it.
//
// It stands between the tests of a ring and the survey of the used nodes, which is handed the box to collect them in. The box
// decides no answer, only where a node is looked for: of a point outside it the whole list is searched. So nothing is
// promised of it but that it is one. The ring's points make it, as they were lent, and where its edges may snap to; middles and
// means lie between them, up to rounding, for which it is a unit wider.

#![tactic(auto)]

ghost use Rattle.laws.specs.Within.{Within};
ghost use Rattle.nodes.specs.Nearby.{Framed};

use nodes::RingBox;
use vector::{GridPoint, Point};

// 1/8192 mm.
const UNIT: f64 = 0.0001220703125;

// How far some points reach. Kept: `frame` has a box too, of whole numbers for a picture, whose sides it bounds; of this one, which
// is of doubles, nothing is promised.
#[derive(Clone, Copy)]
struct Extent {
    lo_x: f64,
    hi_x: f64,
    lo_y: f64,
    hi_y: f64,
}

// A side of the box. It is never beyond 1,025 mm, and that is seen here once.
fn side(x: f64) -> f64
    ensures { Within 1025 result }
{
    if x.is_nan() {
        return -1025.0;
    }
    x.clamp(-1025.0, 1025.0)
}

impl Extent {
    const NONE: Extent = Extent {
        lo_x: 1024.0,
        hi_x: -1024.0,
        lo_y: 1024.0,
        hi_y: -1024.0,
    };

    const SHEET: Extent = Extent {
        lo_x: -1024.0,
        hi_x: 1024.0,
        lo_y: -1024.0,
        hi_y: 1024.0,
    };

    fn with(self, x: f64, y: f64) -> Extent {
        Extent {
            lo_x: self.lo_x.min(x),
            hi_x: self.hi_x.max(x),
            lo_y: self.lo_y.min(y),
            hi_y: self.hi_y.max(y),
        }
    }

    // Half of its width and height together wider on every side.
    fn widened(self) -> Extent {
        let d = (self.hi_x - self.lo_x + (self.hi_y - self.lo_y)) * 0.5;
        Extent {
            lo_x: self.lo_x - d,
            hi_x: self.hi_x + d,
            lo_y: self.lo_y - d,
            hi_y: self.hi_y + d,
        }
    }

    fn holds(self, p: Point) -> bool {
        (self.lo_x <= p.x) & (p.x <= self.hi_x) & (self.lo_y <= p.y) & (p.y <= self.hi_y)
    }

    // With the edge from a to b, but for b, which the next edge begins at. A snap point is taken where it is no farther from
    // the edge's middle than this share of the chord, and a chord is no longer than its width and height together.
    fn with_edge(self, a: Point, b: Point, share: f64) -> Extent {
        let r = share * ((a.x - b.x).abs() + (a.y - b.y).abs());
        let x = (a.x + b.x) * 0.5;
        let y = (a.y + b.y) * 0.5;
        let corner = self.with(a.x, a.y);
        let low = corner.with(x - r, y - r);
        low.with(x + r, y + r)
    }
}

// A point of a ring or a chain, in mm.
fn point(pair: &[i32; 2]) -> Point {
    Point::new(GridPoint::from(*pair))
}

// How far the points of a ring or a chain reach that lie in the box `about`, with what was reached before.
fn of_points(l: &[i32], about: Extent, reached: Extent) -> Extent {
    let (pairs, _) = l.as_chunks::<2>();
    pairs
        .iter()
        .map(point)
        .filter(|p| about.holds(*p))
        .fold(reached, |e, p| e.with(p.x, p.y))
}

// How far the points of a ring reach, and the snap points of its edges.
fn of_ring(ring: &[i32], share: f64) -> Extent {
    let (pairs, _) = ring.as_chunks::<2>();
    let mut e = Extent::NONE;
    if let Some(last) = pairs.last() {
        let mut a = point(last);
        for pair in pairs {
            let b = point(pair);
            e = e.with_edge(a, b, share);
            a = b;
        }
    }
    e
}

// The box of an extent.
fn framed(e: Extent) -> RingBox
    ensures { Framed result }
{
    RingBox::new(
        side(e.lo_x - UNIT),
        side(e.hi_x + UNIT),
        side(e.lo_y - UNIT),
        side(e.hi_y + UNIT),
    )
}

// The box of a ring and what of its chain is near: a snap point lies between two points of the chain, and one that is
// farther than the widened box is taken by no edge.
pub fn ring_box(ring: &[i32], chain: &[i32]) -> RingBox
    ensures { Framed result }
{
    let own = of_points(ring, Extent::SHEET, Extent::NONE);
    framed(of_points(chain, own.widened(), own))
}

// The box of a ring whose edges have given marks, and take snap points up to this share of their chord.
pub fn ring_box_with_marks(ring: &[i32], share: f64) -> RingBox
    ensures { Framed result }
{
    framed(of_ring(ring, share))
}
