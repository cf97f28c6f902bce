// Flat points: the step of cleaning that drops the points within tolerance of the segment joining their neighbours.
//
// It stands between nearness, whose test of a point it makes, and clean, whose passes end with it. The definitions are those of
// clean_steps.

#![tactic(auto)]

ghost use Rattle.std.specs.Prelude.{◌≡◌, drop};
ghost use Rattle.clean_steps.specs.Places.{bent_places};
ghost use Rattle.clean_steps.specs.KeptPlaces.{kept_points, Leaves};

use clean_steps::KeptPlaces;

// What is kept without the points that are flat in it, each judged in the ring as it stands. A place after those kept is what it was.
#[tactic(auto, unfolding(clean_steps::specs::Places::bent_places))]
pub fn bent<'a>(r: &KeptPlaces<'a>) -> KeptPlaces<'a>
    ensures { Leaves r.now (bent_places r.now.tol (kept_points r.now) r.now.count) result
        × (drop result.count result.places ≡ drop result.count r.now.places) }
{
    let n = r.count;
    let mut out = *r;
    let places = &mut out.places;
    let mut count: usize = 0;
    // Kept: a turn looks at a place and at both beside it, round the ring.
    for (i, &here) in r.places[..n].iter().enumerate() {
        let before = r.places[vector::prev(i, n)];
        let after = r.places[vector::next(i, n)];
        if !nearness::flat(
            r.ring[usize::from(before)],
            r.ring[usize::from(here)],
            r.ring[usize::from(after)],
            r.tol,
        ) {
            places[count] = here;
            count += 1;
        }
    }
    out.count = count;
    out
}
