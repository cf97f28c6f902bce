// Segments: how two segments meet, apart, touching or crossing, and whether one runs over a point between its ends.
//
// It stands on vector. A ring is refused with 6 where two of its edges cross (simple), and a diagonal may neither cross an edge of its
// part nor run over a third corner (obstacles).

#![tactic(auto)]

ghost use Rattle.std.specs.Prelude.{◌≡◌, ◌^◌, ◌≤◌, nat_abs};
ghost use Rattle.vector.specs.Size.{OnSheet};
ghost use Rattle.segments.specs.Segments as Segments;
ghost use Rattle.segments.specs.Meeting as Meeting;

use vector::GridPoint;

// The segment from a to b.
#[derive(Clone, Copy)]
pub struct Segment {
    pub a: GridPoint,
    pub b: GridPoint,
    pub ghost on_sheet: { OnSheet a × OnSheet b },
}

// How two segments meet. No pair is both touching and crossing.
#[derive(Clone, Copy, PartialEq, Eq)]
pub enum Crossing {
    Apart,
    Touching,
    Crossing,
}

// t lies strictly between 1.0e-9 and 1.0 - 1.0e-9: an end that only touches does not count.
#[tactic(auto, using(crate::proofs::Literals::tiny_is, laws::proofs::Constants::one_is), unfolding(crate::specs::Segments::interior))]
fn interior(t: f64) -> bool
    ensures { result ≡ Segments.interior t }
{
    1.0e-9 < t && t < 1.0 - 1.0e-9
}

#[tactic(auto, using(laws::proofs::Signed::back), unfolding(crate::specs::Segments::ratio))]
fn ratio(num: i64, den: i64) -> f64
    requires { (nat_abs num ≤ 2 ^ 49) × (nat_abs den ≤ 2 ^ 49) }
    ensures { result ≡ Segments.ratio num den }
{
    vector::to_double(num) / vector::to_double(den)
}

impl Segment {
    pub fn new(a: GridPoint, b: GridPoint) -> Segment
        requires { OnSheet a × OnSheet b }
        ensures { (result.a ≡ a) × (result.b ≡ b) }
    {
        Segment { a, b }
    }

    // Where p is on the line of the ends, the dot product of the steps from it to them: below 0 between the two, 0 at one of them.
    #[tactic(auto, using(laws::proofs::Signed::back, laws::proofs::Signed::fits, laws::proofs::SignedTests::zero64), unfolding(crate::specs::Meeting::place_on_line, crate::specs::Meeting::on_line_of))]
    fn place(self, p: GridPoint) -> Option<i64>
        requires { OnSheet p }
        ensures { result ≡ Meeting.place_on_line self.a self.b p }
    {
        let u = self.a.sub(p);
        let v = self.b.sub(p);
        if u.cross(v) != 0 {
            return None;
        }
        Some(u.dot(v))
    }

    // Whether p is on the segment, its ends included.
    #[tactic(auto, using(crate::proofs::Places::tested), unfolding(crate::specs::Meeting::place_on_line, crate::specs::Meeting::on_segment))]
    fn holds(self, p: GridPoint) -> bool
        requires { OnSheet p }
        ensures { result ≡ Meeting.on_segment self.a self.b p }
    {
        self.place(p).is_some_and(|place| place <= 0)
    }

    // Whether p is strictly between the ends, on their line.
    #[tactic(auto, using(crate::proofs::Places::tested), unfolding(crate::specs::Meeting::place_on_line, crate::specs::Meeting::strictly_between))]
    pub fn runs_over(self, p: GridPoint) -> bool
        requires { OnSheet p }
        ensures { result ≡ Meeting.strictly_between self.a self.b p }
    {
        self.place(p).is_some_and(|place| place < 0)
    }

    // Whether the two cross. Whole numbers decide whether they are parallel, doubles where they meet.
    pub fn crosses(self, other: Segment) -> bool
        ensures { result ≡ Segments.segments_cross self.a self.b other.a other.b }
    {
        let d1 = self.b.sub(self.a);
        let d2 = other.b.sub(other.a);
        let ac = other.a.sub(self.a);
        let den = d1.cross(d2);
        den != 0 && interior(ratio(ac.cross(d2), den)) && interior(ratio(ac.cross(d1), den))
    }

    // Whether an end of one is on the other.
    #[tactic(auto, unfolding(crate::specs::Meeting::touching))]
    fn touches(self, other: Segment) -> bool
        ensures { result ≡ Meeting.touching self.a self.b other.a other.b }
    {
        self.holds(other.a) || self.holds(other.b) || other.holds(self.a) || other.holds(self.b)
    }

    // How the two meet.
    #[tactic(auto, unfolding(crate::specs::Meeting::segments_meet))]
    pub fn meets(self, other: Segment) -> Crossing
        ensures { result ≡ Meeting.segments_meet self.a self.b other.a other.b }
    {
        if self.crosses(other) {
            return Crossing::Crossing;
        }
        if self.touches(other) {
            return Crossing::Touching;
        }
        Crossing::Apart
    }
}
