// Corner: how wide a corner is, and which corner of a part is the worst.
//
// It stands between the points (vector) and the split, which cuts each part at its worst corner while that is bad. The
// measure of a corner rises with its inner angle, without a trigonometric function: 1 at 90 degrees, 2 at 180, 3 at 270.

#![tactic(auto)]

ghost use Rattle.std.specs.Prelude.{◌≡◌, ◌^◌, ◌≤◌, ◌<◌, nat_abs, length};
ghost use Rattle.laws.specs.Double.{nat};
ghost use Rattle.vector.specs.Grid as Grid;
ghost use Rattle.vector.specs.Size.{OnSheet, SheetStep};
ghost use Rattle.vector.specs.Rings.{OnSheetPoints};
ghost use Rattle.corner.specs.Corner as Corners;

use limits::Limits;
use vector::GridPoint;

// A corner of a part: its place and its measure.
#[derive(Clone, Copy)]
pub struct Corner {
    pub at: usize,
    pub measure: f64,
}

impl Corner {
    pub const STRAIGHT: f64 = 2.0;

    const FULL: f64 = 4.0;

    #[tactic(auto, unfolding(crate::specs::Corner::bad))]
    pub fn is_bad(self, limits: Limits) -> bool
        ensures { result ≡ Corners.bad limits self.measure }
    {
        limits.corner < self.measure
    }
}

#[tactic(auto, using(laws::proofs::Signed::back, laws::proofs::Signed::cast_asks))]
fn size(z: i64) -> f64
    requires { nat_abs z ≤ 2 ^ 49 }
    ensures { result ≡ nat (nat_abs z) }
{
    z.unsigned_abs() as f64
}

#[tactic(auto, using(laws::proofs::Signed::back), unfolding(crate::specs::Corner::quotient))]
fn quotient(s: i64, c: i64) -> f64
    requires { (nat_abs s ≤ 2 ^ 49) × (nat_abs c ≤ 2 ^ 49) }
    ensures { result ≡ Corners.quotient s c }
{
    vector::to_double(s) / (size(s) + size(c))
}

// The measure of the corner between the step u into it and the step v out of it.
#[tactic(auto, using(laws::proofs::Signed::back, laws::proofs::Constants::two_bits, laws::proofs::Constants::four_bits, laws::proofs::SignedTests::from_zero), unfolding(crate::specs::Corner::measure, crate::specs::Corner::by_quadrant))]
fn measure(u: GridPoint, v: GridPoint) -> f64
    requires { SheetStep u × SheetStep v }
    ensures { result ≡ Corners.measure u v }
{
    if u.is_zero() || v.is_zero() {
        return Corner::STRAIGHT;
    }
    let s = u.cross(v);
    let c = u.dot(v);
    let q = quotient(s, c);
    if c >= 0 {
        return Corner::STRAIGHT - q;
    }
    if s >= 0 {
        return q;
    }
    Corner::FULL + q
}

// The measure of the corner at b, between a and c.
fn corner_at(a: GridPoint, b: GridPoint, c: GridPoint) -> f64
    requires { OnSheet a × OnSheet b × OnSheet c }
    ensures { result ≡ Corners.measure (Grid.sub b a) (Grid.sub c b) }
{
    measure(b.sub(a), c.sub(b))
}

// The worst corner of a part: of equal ones the last.
#[tactic(auto, using(crate::proofs::Scan::by_points, crate::proofs::Scan::before, crate::proofs::Scan::taken, crate::proofs::Scan::passed, vector::proofs::Rings::at_place, vector::proofs::Rings::at_following), unfolding(crate::specs::Corner::worst))]
pub fn worst(part: &[GridPoint]) -> Corner
    requires { OnSheetPoints part.now × (1 ≤ length part.now) }
    ensures { (result.at ≡ Corners.worst part.now) × (result.measure ≡ Corners.measure_at part.now result.at) × (result.at < length part.now) }
{
    let n = part.len();
    let mut worst = Corner {
        at: 0,
        measure: corner_at(part[n - 1], part[0], part[vector::next(0, n)]),
    };
    // Kept: a corner is three places of the part. Over `windows(3)` the last corner, whose next point is the first, would be a copy
    // of the body behind the loop, as corner 0 is one before it, and the place that is answered would be counted beside.
    for i in 1..n {
        let measure = corner_at(part[i - 1], part[i], part[vector::next(i, n)]);
        if worst.measure <= measure {
            worst = Corner { at: i, measure };
        }
    }
    worst
}
