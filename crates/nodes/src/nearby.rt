// Nearby: the nodes in a ring's box, which `survey` collects, and the search among them.
//
// A coordinate's key grows with it. So a point whose keys lie strictly between those of the sides of the box shares its keys
// with no node outside, and is looked for among the collected nodes alone. specs/Nearby has the words for that.

ghost use Rattle.std.specs.Prelude.{◌≡◌, ◌&&◌, ◌+◌, ◌≤◌, ◌<◌, leb};
ghost use Rattle.laws.specs.Within.{Within};
ghost use Rattle.nodes.specs.Nearby.{most_nearby, span, Spans, in_span, Framed, in_box, well_in, well_inside};

use super::NodeNumber;
use keys::SoughtKey;

// So many nodes are collected at most.
pub const MOST_NEARBY: usize = 256;

// The coordinates from lo to hi; and the least and the most of the keys strictly between those of these two ends, as doubles.
#[derive(Clone, Copy)]
pub struct Span {
    pub lo: f64,
    pub hi: f64,
    pub least: f64,
    pub most: f64,
}

// The box of a ring: a span of x and one of y.
#[derive(Clone, Copy)]
pub struct RingBox {
    pub x: Span,
    pub y: Span,
}

// What was collected: of the nodes in the first `old` places those in the box, `count` of them. Where there are more
// than MOST_NEARBY they are not all collected, and `count` is one above that. Kept: no Option. The survey goes on with it
// from block to block, by one definition, `counted`, and ValidNearby asks by `≤` whether all are collected; both would be a
// match.
#[derive(Clone, Copy)]
pub struct Nearby {
    pub ring_box: RingBox,
    pub old: usize,
    pub count: usize,
}

// The collected nodes of a ring's box as they are looked through: their numbers, rising, and their x, in two lists since the
// search goes through the x alone.
// Kept: no ghost field says of which list they are, ValidCollected. It would have to hold that list lent for reading, and all but
// one of the functions that are handed it write the list.
#[derive(Clone, Copy)]
pub struct Collected<'a> {
    pub near: Nearby,
    pub numbers: &'a [NodeNumber],
    pub xs: &'a [f64],
}

impl Span {
    pub fn new(lo: f64, hi: f64) -> Span
        requires { Within 1025 lo × Within 1025 hi }
        ensures { (result ≡ span lo hi) × Spans result }
    {
        let a = keys::key(lo);
        let b = keys::key(hi);
        Span {
            lo,
            hi,
            least: (a + 1) as f64,
            most: (b - 1) as f64,
        }
    }

    pub fn holds(self, x: f64) -> bool
        ensures { result ≡ in_span self x }
    {
        (self.lo <= x) & (x <= self.hi)
    }

    // Whether the key lies strictly between those of the ends: the scaled coordinate is rounded to no key beyond the two.
    pub fn strict(self, k: SoughtKey) -> bool
        ensures { result ≡ well_in self k.scaled }
    {
        (self.least <= k.scaled) & (k.scaled <= self.most)
    }
}

impl RingBox {
    pub fn new(lo_x: f64, hi_x: f64, lo_y: f64, hi_y: f64) -> RingBox
        requires { Within 1025 lo_x × Within 1025 hi_x × Within 1025 lo_y × Within 1025 hi_y }
        ensures { (result ≡ record { x = span lo_x hi_x; y = span lo_y hi_y }) × Framed result }
    {
        RingBox {
            x: Span::new(lo_x, hi_x),
            y: Span::new(lo_y, hi_y),
        }
    }

    pub fn holds(self, x: f64, y: f64) -> bool
        ensures { result ≡ in_box self x y }
    {
        let a = self.x;
        let b = self.y;
        a.holds(x) & b.holds(y)
    }

    // Kept: two keys and no SoughtPoint, whose ghost field would ask what is not asked here.
    pub fn strict(self, kx: SoughtKey, ky: SoughtKey) -> bool
        ensures { result ≡ well_inside self kx.scaled ky.scaled }
    {
        let a = self.x;
        let b = self.y;
        a.strict(kx) && b.strict(ky)
    }
}

impl Nearby {
    // Whether a point with these keys is among the collected nodes, if it is among the first `old` at all.
    pub fn decides(self, kx: SoughtKey, ky: SoughtKey) -> bool
        ensures { result ≡ (leb self.count most_nearby && well_inside self.ring_box kx.scaled ky.scaled) }
    {
        let w = self.ring_box;
        self.count <= MOST_NEARBY && w.strict(kx, ky)
    }
}

// Where a block that starts at place i ends: `size` places on, or at the last.
pub fn block_end(i: usize, size: usize, last: usize) -> usize
    requires { (0 < size) × (i < last) }
    ensures { (i < result) × (result ≤ last) × (result ≤ i + size) × (size ≤ last → size ≤ result) × (result < last → result ≡ i + size) }
{
    i + size.min(last - i)
}
