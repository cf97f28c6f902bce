// Given: the marks that a caller gives in place of a chain, 0 straight, 1 snapped to a given point, 2 snapped to the nearest
// point of an outline with holes; and which of them survive cleaning.
//
// It stands beside `chain` and `marks` in the way of a ring: they mark the edges along a drawn chain, this crate takes the
// marks as they are lent, once given_tests has let them pass. The definitions are those of call's specs/Marked.

#![tactic(auto)]

ghost use Rattle.std.specs.Prelude.{◌≡◌, false, cond, ◌≤◌, length, take};
ghost use Rattle.vector.specs.Rings.{points_of};
ghost use Rattle.marks.specs.declared.EdgeMark.TheVariants.{Straight};
ghost use Rattle.call.specs.Marked as Marked;
ghost use Rattle.outline.specs.Outline.{nearest_boundary_point};
ghost use Rattle.given_tests.specs.Lent.{lent_in};
ghost use Rattle.given.specs.Steps.{sought, OutlineRead, places_in, MarksOf, mark_left, MarkedTo, Survive};

mod lead;

use clean::CleanedRing;
use given_tests::Marking;
use lead::LeadLine;
use marks::EdgeMark;
use vector::{GridPoint, MOST_POINTS, Point, Ring};

impl LeadLine {
    // The point of the outline that is nearest to p.
    fn nearest(&self, p: Point) -> Point
        ensures { result ≡ nearest_boundary_point p (sought self.now) }
    {
        outline::nearest_boundary_point(p, &self.points, &self.loops[..self.count])
    }
}

// How many points each loop has, in the first places; the places after them hold 0.
fn loop_counts(loops: &[u32]) -> [usize; 20]
    requires { length loops.now ≤ 20 }
    ensures { take (length loops.now) result ≡ loops.now }
{
    std::array::from_fn(|i| loops.get(i).map_or(0, |m| *m as usize))
}

// The outline that is sought: the one lent where it is called for, and else none.
fn lead_line(marking: Marking<'_>) -> LeadLine
    requires { Marked.outline_out marking.kinds.now marking.outline.now marking.loops.now ≡ false }
    ensures { OutlineRead marking.entry.kinds.now marking.entry.outline.now marking.entry.loops.now result }
{
    if !given_tests::called_for(marking.kinds) {
        return LeadLine {
            points: [GridPoint::ORIGIN; MOST_POINTS],
            loops: [0; 20],
            count: 0,
        };
    }
    let own = lent_points::points(marking.outline, marking.outline.len() / 2);
    let points = own.points;
    LeadLine {
        points,
        loops: loop_counts(marking.loops),
        count: marking.loops.len(),
    }
}

// The mark of the edge from a to b, of a kind and with its given point.
// Kept: the kinds are the bytes that C lends. An enum would be made of each byte by a `match` with a case for those that the
// tests refuse, to be matched here again, once.
#[tactic(auto, unfolding(call::specs::Marked::mark_of, call::specs::Marked::lead_point))]
fn given_mark(kind: u8, p: Point, a: GridPoint, b: GridPoint, lead: &LeadLine) -> EdgeMark
    ensures { result ≡ Marked.mark_of kind p (Marked.lead_point (sought lead.now) a b) }
{
    match kind {
        1 => EdgeMark::Snap(p),
        2 => {
            let m = quads::halfway(Point::new(a), Point::new(b));
            EdgeMark::Snap(lead.nearest(m))
        }
        _ => EdgeMark::Straight,
    }
}

// The same where the edge stays, and else straight: it joins two kept points over dropped ones.
// Kept: the kind is the byte that the caller lent, handed on to the one `match` on it, above.
fn surviving_mark(
    stays: bool,
    kind: u8,
    p: Point,
    a: GridPoint,
    b: GridPoint,
    lead: &LeadLine,
) -> EdgeMark
    ensures { result ≡ cond stays (Marked.mark_of kind p (Marked.lead_point (sought lead.now) a b)) Straight }
{
    if stays {
        given_mark(kind, p, a, b, lead)
    } else {
        EdgeMark::Straight
    }
}

// The marks of the ring after cleaning. The edge from a kept place stays exactly if the next kept place is the next place of
// the ring.
fn marks_left(
    ring: &Ring,
    clean: &CleanedRing,
    marking: Marking<'_>,
    lead: &LeadLine,
) -> [EdgeMark; MOST_POINTS]
    requires { MarksOf ring.now marking.kinds.now marking.snaps.now clean.now }
    ensures { MarkedTo (mark_left ring.now clean.now marking.entry.kinds.now marking.entry.snaps.now (sought lead.now)) clean.now.ring.count result }
{
    let places = &clean.places[..clean.ring.count];
    let mut edges = [EdgeMark::Straight; MOST_POINTS];
    // Kept: a turn looks at a kept place and at the next one round the cleaned ring, so that it counts them.
    for (j, place) in places.iter().enumerate() {
        let k = usize::from(*place);
        let after = vector::next(k, ring.count);
        let kept = usize::from(places[vector::next(j, places.len())]);
        let p = nodes::point_at(marking.snaps, k);
        edges[j] = surviving_mark(
            kept == after,
            marking.kinds[k],
            p,
            ring.points[k],
            ring.points[after],
            lead,
        );
    }
    edges
}

// The marks of a cleaned ring: those given to the ring that it came of that survive.
pub fn surviving_marks(
    ring: &Ring,
    clean: &CleanedRing,
    marking: Marking<'_>,
) -> [EdgeMark; MOST_POINTS]
    requires { MarksOf ring.now marking.kinds.now marking.snaps.now clean.now
        × (Marked.outline_out marking.kinds.now marking.outline.now marking.loops.now ≡ false) }
    ensures { Survive (lent_in marking.entry) (points_of ring.now) (places_in clean.now) result }
{
    marks_left(ring, clean, marking, &lead_line(marking))
}
