// Lent points: what a caller lends as a ring or a chain, numbers, x and y in turn. Refusals 1 and 2, and the points that are
// read once these have passed.
//
// It is the first step in the way of a ring, for the divider's entries and for the writer of blocks alike. Nothing is asked
// of what is lent: every count and every number is tested.

#![tactic(auto)]

ghost use Rattle.std.specs.Prelude.{◌≡◌, ◌||◌, not, ◌++◌, ◌-◌, ◌*◌, ◌/◌, ◌%◌, ◌≤◌, eqb, ltb, length, replicate};
ghost use Rattle.vector.specs.Grid.{origin};
ghost use Rattle.vector.specs.Size.{AllOnSheet};
ghost use Rattle.vector.specs.Rings.{most_points, OnSheetRing};
ghost use Rattle.call.specs.Call as Call;
ghost use Rattle.call.specs.Lent.{point_in, points_in};

use vector::{GridPoint, MOST_POINTS, Ring};

// 1: a count that is odd, or out of limits. Of the ring's numbers and the chain's, two a point.
#[tactic(auto, unfolding(call::specs::Call::counts_out))]
pub fn counts_out(ring: usize, chain: usize) -> bool
    ensures { result ≡ (not (eqb (ring % 2) 0) || not (eqb (chain % 2) 0) || Call.counts_out (ring / 2) (chain / 2)) }
{
    ring % 2 != 0
        || chain % 2 != 0
        || ring / 2 < 3
        || MOST_POINTS < ring / 2
        || MOST_POINTS < chain / 2
}

fn beyond(z: i32) -> bool
    ensures { result ≡ Call.beyond z }
{
    !(-8388608..=8388608).contains(&z)
}

#[tactic(auto, unfolding(call::specs::Call::outside))]
fn outside(p: GridPoint) -> bool
    ensures { result ≡ Call.outside p }
{
    beyond(p.x) || beyond(p.y)
}

// The point of two numbers.
fn point(numbers: &[i32; 2]) -> GridPoint
    ensures { result ≡ point_in numbers.now 0 }
{
    GridPoint::from(*numbers)
}

// A coordinate of a ring or a chain is beyond the limits.
pub fn any_outside(l: &[i32]) -> bool
    ensures { result ≡ Call.any_outside (points_in l.now (length l.now / 2)) }
{
    let (points, _) = l.as_chunks::<2>();
    points.iter().any(|p| outside(point(p)))
}

// The sheet size is out of limits.
pub fn size_out(size: u32) -> bool
    ensures { result ≡ (eqb size 0 || ltb 2048 size) }
{
    size == 0 || 2048 < size
}

// 2: a coordinate or the sheet size.
// Kept: a ring, a chain and a size, no struct of the three, which is `divider::ByChain`, above. `marked` has no chain: it asks of an
// empty one here, and a struct would have to be made for that alone.
#[tactic(auto, unfolding(call::specs::Call::units_out))]
pub fn units_out(ring: &[i32], chain: &[i32], size: u32) -> bool
    ensures { result ≡ Call.units_out (points_in ring.now (length ring.now / 2))
        (points_in chain.now (length chain.now / 2)) size }
{
    any_outside(ring) || any_outside(chain) || size_out(size)
}

// The first n points of a ring or a chain as a value; the places after them hold the origin.
// Kept: a count beside the list, which may end in half a point and is lent whole.
pub fn points(l: &[i32], n: usize) -> Ring
    requires { (n ≤ most_points) × (n * 2 ≤ length l.now) × AllOnSheet (points_in l.now n) }
    ensures { (result ≡ record { points = points_in l.now n ++ replicate (most_points - n) origin; count = n }) × OnSheetRing result }
{
    let (pairs, _) = l.as_chunks::<2>();
    let lent = &pairs[..n];
    let mut points = [GridPoint::ORIGIN; MOST_POINTS];
    // Kept: by `enumerate`, as in `clean`, whose line says why not by `zip`. `std::array::from_fn` would ask of each of the 60 places
    // whether a point is lent there: no plainer, and 2.2 % more instructions of a small ring's call.
    for (i, p) in points[..n].iter_mut().enumerate() {
        *p = point(&lent[i]);
    }
    Ring { points, count: n }
}
