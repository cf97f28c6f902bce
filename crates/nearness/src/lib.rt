// Nearness: the tests that cleaning makes of a point, whether it is within tolerance of another, and whether it is flat between its
// neighbours.
//
// It stands on vector and root; clean drops the points that these tests find. That they are the Rust's is proved in
// proofs/RustNearness.

#![tactic(auto)]

ghost use Rattle.std.specs.Prelude.{◌≡◌};
ghost use Rattle.laws.specs.Double.{◌≤f◌};
ghost use Rattle.vector.specs.Size.{OnSheet};
ghost use Rattle.nearness.specs.Nearness as Nearness;

use vector::{GridPoint, Point};

// Whether a and b are within tolerance.
#[tactic(auto, unfolding(crate::specs::Nearness::near))]
pub fn near(a: GridPoint, b: GridPoint, tol: f64) -> bool
    requires { OnSheet a × OnSheet b }
    ensures { result ≡ Nearness.near tol a b }
{
    root::grid_dist_at_most(a, b, tol)
}

// Whether p is within tolerance of the segment joining a and b. The two products are whole numbers, so their quotient is
// rounded once.
// Kept: two ends. `flat` alone calls it, to which they are the neighbours of p; a struct would be made there for this one call.
#[tactic(auto, using(laws::proofs::Signed::back, vector::proofs::Same::derived_same, laws::proofs::Clamp::unit_clamp), unfolding(crate::specs::Nearness::point_segment_distance))]
fn near_segment(p: GridPoint, a: GridPoint, b: GridPoint, tol: f64) -> bool
    requires { OnSheet p × OnSheet a × OnSheet b }
    ensures { result ≡ (Nearness.point_segment_distance p a b ≤f tol) }
{
    if a == b {
        return root::grid_dist_at_most(p, a, tol);
    }
    let ab = b.sub(a);
    let along = vector::to_double(p.sub(a).dot(ab)) / vector::to_double(ab.dot(ab));
    let foot = Point::new(a).lerp(Point::new(b), along.clamp(0.0, 1.0));
    root::dist_at_most(Point::new(p), foot, tol)
}

// Whether p lies within tolerance of the segment joining its neighbours a and b, and the way does not turn back at it.
// The exact test comes first: it costs no division.
#[tactic(auto, using(laws::proofs::Signed::back, crate::proofs::Flatness::flat_no, crate::proofs::Flatness::flat_test), unfolding(crate::specs::Nearness::is_flat))]
pub fn flat(a: GridPoint, p: GridPoint, b: GridPoint, tol: f64) -> bool
    requires { OnSheet a × OnSheet p × OnSheet b }
    ensures { result ≡ Nearness.is_flat tol a p b }
{
    if p.sub(a).dot(b.sub(p)) <= 0 {
        return false;
    }
    near_segment(p, a, b, tol)
}
