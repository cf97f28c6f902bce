// Simple: whether a cleaned ring crosses itself, which the divider refuses with 6; and whether a point is inside a ring.
//
// It stands on segments, which says how two edges meet. The divider asks it of a ring after cleaning, before the split; the middle of a
// diagonal has to be inside its part (obstacles).

#![tactic(auto)]

ghost use Rattle.std.specs.Prelude.{◌≡◌};
ghost use Rattle.vector.specs.Rings.{OnSheetPoints};
ghost use Rattle.simple.specs.Simple as Simple;

use segments::Segment;
use vector::{GridPoint, Point};

// Whether no edge of the ring crosses another. The scan over pairs of edges ends at the first crossing; the edge after i is
// left out by where the inner loop starts, the edge before the first, which ends where it starts, by its end.
// Kept: nested loops over edge pairs left by a label are the form that the specification names for this scan.
#[tactic(auto, using(crate::proofs::Pairs::too_few, crate::proofs::Pairs::none_before), unfolding(laws::specs::Bounded::any))]
pub fn polygon_simple(ring: &[GridPoint]) -> bool
    requires { OnSheetPoints ring.now }
    ensures { result ≡ Simple.polygon_simple ring.now }
{
    let n = ring.len();
    if n < 3 {
        return false;
    }
    let mut found = false;
    // Kept: as above, both.
    'scan: for i in 0..n {
        let edge = Segment::new(ring[i], ring[vector::next(i, n)]);
        for j in i + 2..n {
            let k = vector::next(j, n);
            if k != i && edge.crosses(Segment::new(ring[j], ring[k])) {
                found = true;
                break 'scan;
            }
        }
    }
    !found
}

// The ray from p to the right meets the edge from a to b.
#[tactic(auto, unfolding(crate::specs::Simple::ray_meets))]
fn ray_meets(a: Point, b: Point, p: Point) -> bool
    ensures { result ≡ Simple.ray_meets a b p }
{
    if (p.y < a.y) == (p.y < b.y) {
        return false;
    }
    let t = (p.y - a.y) / (b.y - a.y);
    p.x < a.x + t * (b.x - a.x)
}

// Whether p is inside the ring: its ray meets an odd number of edges.
#[tactic(auto, using(laws::proofs::Search::parity_next, vector::proofs::Rings::at_place, vector::proofs::Rings::at_following), unfolding(laws::specs::Bounded::parity, crate::specs::Simple::meets_edge, crate::specs::Simple::point_in_polygon))]
pub fn point_in_polygon(ring: &[GridPoint], p: Point) -> bool
    requires { OnSheetPoints ring.now }
    ensures { result ≡ Simple.point_in_polygon ring.now p }
{
    let mut inside = false;
    // Kept: a turn looks at a point and the next one round the ring, by place, as the definition does.
    for (i, a) in ring.iter().enumerate() {
        let b = ring[vector::next(i, ring.len())];
        inside ^= ray_meets(Point::new(*a), Point::new(b), p);
    }
    inside
}
