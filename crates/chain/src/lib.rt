// The chain: the drawn boundary run is reduced to its corners, and each stretch kept has one snap point.
//
// It stands on arclength, the lengths along a chain, and before the marks, which lay the kept stretches along the edges of the
// cleaned ring. A chain is a slice of its points.

#![tactic(auto)]

ghost use Rattle.std.specs.Prelude.{◌≡◌, false, ◌||◌};
ghost use Rattle.laws.specs.Double.{lit, ◌<f◌};
ghost use Rattle.vector.specs.Grid as Grid;
ghost use Rattle.vector.specs.Size.{OnSheet};
ghost use Rattle.vector.specs.Rings.{OnSheetPoints};
ghost use Rattle.root.specs.Norm as Norm;
ghost use Rattle.cosine.specs.Cosine as Cosine;
ghost use Rattle.chain.specs.Stretches.{Simplifies};

use cosine::Normed;
use vector::{GridPoint, MOST_POINTS, Point};

// A simplified chain: the points kept, in the places 0 to count, and in the places below count the snap point of the
// stretch from each to the next.
// Kept: two arrays and a count. In an array of pairs the last point kept, which has no snap point, would have a made-up one, and
// there is no heap for two lists of their own lengths.
#[derive(Clone, Copy)]
pub struct Simplified {
    pub points: [GridPoint; MOST_POINTS],
    pub snaps: [Point; MOST_POINTS],
    pub count: usize,
}

// Whether the chain point b stays, between a and c: it is the last, touches a step of no length, or turns by more than
// 25 degrees. The lengths of the two steps come in.
fn stays(a: GridPoint, b: GridPoint, c: GridPoint, nu: f64, nv: f64, last: bool) -> bool
    requires { OnSheet a × OnSheet b × OnSheet c × (nu ≡ Norm.grid_dist b a) × (last ≡ false → nv ≡ Norm.grid_dist c b) }
    ensures { result ≡ (last || Grid.same (Grid.sub b a) Grid.origin || Grid.same (Grid.sub c b) Grid.origin
        || (Cosine.cosine (Grid.sub b a) (Grid.sub c b) <f lit 9063077870366499 16)) }
{
    let u = b.sub(a);
    let v = c.sub(b);
    last || u.is_zero()
        || v.is_zero()
        || cosine::cosine(Normed { step: u, norm: nu }, Normed { step: v, norm: nv })
            < 0.9063077870366499
}

// The points of the chain that stay, and the snap point of each stretch between them, at half its length.
// Kept: a turn looks at three points and at four lengths, so that it counts places. Over `windows(3)` the last point, which has
// none after it and always stays, would be kept by a copy of the body behind the loop.
pub fn simplify_chain(chain: &[GridPoint]) -> Simplified
    requires { OnSheetPoints chain.now }
    ensures { Simplifies chain.now result }
{
    let n = chain.len();
    let mut points = [GridPoint::ORIGIN; MOST_POINTS];
    let mut snaps = [Point::ORIGIN; MOST_POINTS];
    let mut count = 0;
    if n == 0 {
        return Simplified {
            points,
            snaps,
            count,
        };
    }
    let l = arclength::measure(chain);
    points[0] = chain[0];
    let mut previous = 0;
    // Kept: as above.
    for i in 1..n {
        let after = vector::next(i, n); // not looked at where i is the last
        if stays(
            chain[i - 1],
            chain[i],
            chain[after],
            l.step[i],
            l.step[after],
            i + 1 == n,
        ) {
            let half = 0.5 * (l.arc[previous] + l.arc[i]);
            snaps[count] = arclength::point_at_arclength(chain, &l.arc[..n], half);
            count += 1;
            points[count] = chain[i];
            previous = i;
        }
    }
    Simplified {
        points,
        snaps,
        count,
    }
}
