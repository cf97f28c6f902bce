// Obstacles: what may stand in the way of a diagonal of a part, its midpoint outside, an edge that it crosses, a corner that it runs over.
//
// It stands on segments and simple, which say how an edge and a corner lie to the diagonal and whether a point is inside; the diagonal asks
// it of each one that would win. The points of the part are counted from its worst corner, so that a diagonal goes from corner 0 to a
// corner k.

#![tactic(auto)]

ghost use Rattle.std.specs.Prelude.{◌≡◌, ◌≤◌, ◌<◌, length};
ghost use Rattle.laws.specs.Bounded.{any};
ghost use Rattle.vector.specs.Rings.{most_points, OnSheetPoints};
ghost use Rattle.obstacles.specs.Obstacles as Obstacles;

use segments::Segment;
use vector::{GridPoint, Point};

// Whether edge e of n touches neither corner 0 nor corner k.
#[tactic(auto, unfolding(crate::specs::Obstacles::clear_of))]
fn clear_of(n: usize, k: usize, e: usize) -> bool
    requires { (e < n) × (n ≤ most_points) }
    ensures { result ≡ Obstacles.clear_of n k e }
{
    e != 0 && e + 1 != n && e != k && e + 1 != k
}

// Whether the diagonal to corner k crosses an edge that touches neither end. The scan ends at the first crossing.
// Kept: a loop left by a label is the form that the specification names for the scan over pairs of edges, and for this one.
fn blocked(part: &[GridPoint], k: usize) -> bool
    requires { OnSheetPoints part.now × (k < length part.now) }
    ensures { result ≡ any (Obstacles.crosses_edge part.now k) (length part.now) }
{
    let n = part.len();
    let diagonal = Segment::new(part[0], part[k]);
    let mut found = false;
    // Kept: as above.
    'scan: for e in 0..n {
        if clear_of(n, k, e) && diagonal.crosses(Segment::new(part[e], part[vector::next(e, n)])) {
            found = true;
            break 'scan;
        }
    }
    found
}

// Whether the diagonal to corner k runs over another corner, which is strictly between its ends.
fn runs_over(part: &[GridPoint], k: usize) -> bool
    requires { OnSheetPoints part.now × (k < length part.now) }
    ensures { result ≡ any (Obstacles.runs_over part.now k) (length part.now) }
{
    let diagonal = Segment::new(part[0], part[k]);
    part.iter().any(|c| diagonal.runs_over(*c))
}

// Whether the diagonal to corner k has its midpoint inside, crosses no edge and runs over no corner.
pub fn is_unobstructed(part: &[GridPoint], k: usize) -> bool
    requires { OnSheetPoints part.now × (k < length part.now) }
    ensures { result ≡ Obstacles.unobstructed part.now k }
{
    let a = Point::new(part[0]);
    let b = Point::new(part[k]);
    simple::point_in_polygon(part, a.lerp(b, 0.5)) && !blocked(part, k) && !runs_over(part, k)
}
