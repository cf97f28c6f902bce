// Arclength: the lengths along a chain, in mm, and the point of it at a given length.
//
// It stands below the chain, whose kept stretches have their snap points at half their length. A chain is a slice of its points.

#![tactic(auto)]

ghost use Rattle.std.specs.Prelude.{◌≡◌, cond, suc, ◌-◌, ◌≤◌, length, take, drop, get_or, position, replicate};
ghost use Rattle.std.specs.Float.{nan};
ghost use Rattle.laws.specs.Double.{nat, ◌-f◌, ◌/f◌, ◌≤f◌};
ghost use Rattle.laws.specs.Double as Double;
ghost use Rattle.laws.specs.Bounded.{first};
ghost use Rattle.laws.specs.Table.{tab};
ghost use Rattle.vector.specs.Plane.{in_mm, lerp};
ghost use Rattle.vector.specs.Rings.{most_points, OnSheetPoints};
ghost use Rattle.arclength.specs.Arclength as Arclength;

use vector::{GridPoint, MOST_POINTS, Point};

// The length of the step to each point of a chain, and of the chain up to it.
// Kept: two arrays. Of one array of pairs each equation, here and in what `point_at_arclength` asks, would be of a `map` over it,
// and the search for a length would step over the other number of each.
#[derive(Clone, Copy)]
pub struct Steps {
    pub step: [f64; MOST_POINTS],
    pub arc: [f64; MOST_POINTS],
}

// Every step of the chain is measured once. The places after its points are 0.
pub fn measure(chain: &[GridPoint]) -> Steps
    requires { OnSheetPoints chain.now × (1 ≤ length chain.now) }
    ensures { (take (length chain.now) result.step ≡ tab (Arclength.step_to chain.now) (length chain.now))
        × (take (length chain.now) result.arc ≡ tab (Arclength.arc chain.now) (length chain.now))
        × (drop (length chain.now) result.step ≡ replicate (most_points - length chain.now) (nat 0))
        × (drop (length chain.now) result.arc ≡ replicate (most_points - length chain.now) (nat 0)) }
{
    let mut step = [0.0; MOST_POINTS];
    let mut arc = [0.0; MOST_POINTS];
    let mut end = 0.0;
    let mut last = chain[0];
    // Kept: two arrays are written a turn, at the point's place.
    for (i, &p) in chain[1..].iter().enumerate() {
        let d = root::grid_dist(p, last);
        end += d;
        step[i + 1] = d;
        arc[i + 1] = end;
        last = p;
    }
    Steps { step, arc }
}

// The first of these lengths that is s or beyond it.
fn reached(ends: &[f64], s: f64) -> Option<usize>
    ensures { result ≡ position (λ e. s ≤f e) ends.now }
{
    ends.iter().position(|end| s <= *end)
}

// The first step of the chain that ends at the length s or beyond it, or the last step.
fn step_at(arc: &[f64], s: f64) -> usize
    requires { 2 ≤ length arc.now }
    ensures { (result ≡ first (λ i. s ≤f get_or arc.now (suc i) nan) (length arc.now - 2) 0) × (result ≤ length arc.now - 2) }
{
    let ends = &arc[1..arc.len() - 1];
    reached(ends, s).unwrap_or(ends.len())
}

// The point at the length s on the step from a, at the length low, to b, at the length high.
#[tactic(auto, using(laws::proofs::Constants::zero_bits, laws::proofs::Clamp::unit_clamp))]
fn between(a: GridPoint, low: f64, b: GridPoint, high: f64, s: f64) -> Point
    ensures { result ≡ cond (high -f low ≤f nat 0) (in_mm b) (lerp (in_mm a) (in_mm b) (Double.clamp (nat 0) (nat 1) ((s -f low) /f (high -f low)))) }
{
    let span = high - low;
    if span <= 0.0 {
        return Point::new(b);
    }
    let t = ((s - low) / span).clamp(0.0, 1.0);
    Point::new(a).lerp(Point::new(b), t)
}

// The point of the chain at the length s, by the lengths up to its points.
#[tactic(auto, using(crate::proofs::Walk::as_long))]
pub fn point_at_arclength(chain: &[GridPoint], arc: &[f64], s: f64) -> Point
    requires { (2 ≤ length chain.now) × (arc.now ≡ tab (Arclength.arc chain.now) (length chain.now)) }
    ensures { result ≡ Arclength.point_at_arclength chain.now s }
{
    let i = step_at(arc, s);
    between(chain[i], arc[i], chain[i + 1], arc[i + 1], s)
}
