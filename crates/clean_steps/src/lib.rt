// Steps of cleaning: the points of a ring that one step of a pass keeps.
//
// It stands between nearness, whose tests of a point these are, and clean, which makes passes of the steps until one drops none.
// A step takes the places kept so far and answers fewer: the code carries the places, a byte each, and lends the
// ring. The steps are defined in specs/Steps, of the points, and in specs/Places, of their places. Those that look at two points
// are here, and the one that looks at three is `flat_points`.

#![tactic(auto)]

ghost use Rattle.std.specs.Prelude.{◌≡◌, ◌≤◌, drop};
ghost use Rattle.clean_steps.specs.Steps as Steps;
ghost use Rattle.clean_steps.specs.Places.{spaced_places, ValidKeptPlaces};

use vector::{GridPoint, MOST_POINTS};

// The places of a ring that are kept, those in the first count places, and the tolerance that cleaning has in it.
// Kept: an array with its count. There is no heap, and a slice owns no places, of which each step leaves fewer.
#[derive(Clone, Copy)]
pub struct KeptPlaces<'a> {
    pub ring: &'a [GridPoint; MOST_POINTS],
    pub tol: f64,
    pub places: [u8; MOST_POINTS],
    pub count: usize,
    ghost valid: { ValidKeptPlaces ring.now places count },
}

impl<'a> KeptPlaces<'a> {
    ghost use Rattle.clean_steps.specs.KeptPlaces.{kept_points, Leaves};

    // What is kept without the points within tolerance of the last kept one. A place after those kept is what it was.
    pub fn spaced(&self) -> KeptPlaces<'a>
        requires { 1 ≤ self.now.count }
        ensures { (1 ≤ result.count) × Leaves self.now (spaced_places self.now.tol (kept_points self.now) self.now.count) result
            × (drop result.count result.places ≡ drop result.count self.now.places) }
    {
        let mut out = *self;
        let places = &mut out.places;
        let mut count: usize = 1;
        for &p in &self.places[1..self.count] {
            let last = places[count - 1];
            if !nearness::near(
                self.ring[usize::from(last)],
                self.ring[usize::from(p)],
                self.tol,
            ) {
                places[count] = p;
                count += 1;
            }
        }
        out.count = count;
        out
    }

    // How many places stay where final points within tolerance of the first are dropped.
    pub fn opened(&self) -> usize
        ensures { (result ≤ self.now.count) × (result ≡ Steps.opened self.now.tol (kept_points self.now) self.now.count) }
    {
        let first = self.ring[usize::from(self.places[0])];
        let after = &self.places[self.count.min(1)..self.count];
        let closing = after
            .iter()
            .rev()
            .take_while(|p| nearness::near(first, self.ring[usize::from(**p)], self.tol))
            .count();
        self.count - closing
    }
}
