// Search: the first of some places in which a point with two keys stands.
//
// The places are those of the node list, or those of the nodes that were collected.

ghost use Rattle.std.specs.Prelude.{◌≡◌, ℕ, ◌+◌, ◌-◌, ◌*◌, ◌≤◌, ◌<◌, get_or};
ghost use Rattle.laws.specs.Bounded.{any};
ghost use Rattle.vector.specs.declared.Point as Spot;
ghost use Rattle.keys.specs.Keys.{key_of, near};
ghost use Rattle.nodes.specs.Nodes.{has_key};
ghost use Rattle.nodes.specs.Growth.{InRange};
ghost use Rattle.nodes.specs.Flat.{node_in_of, Usable};
ghost use Rattle.nodes.specs.Nearby.{NearbyLists};
ghost use Rattle.numbering.specs.Search.{found};

use keys::{SoughtKey, SoughtPoint};
use nodes::NodeNumber;
use std::simd::prelude::*;

// Places, in each of which a point stands.
pub trait Places: Copy {
    ghost at: { Self → ℕ → Spot.Point };

    ghost count: { Self → ℕ };

    fn len(self) -> usize
        ensures { result ≡ count self };

    fn x(self, i: usize) -> f64
        requires { i < count self }
        ensures { result ≡ (at self i).x };

    fn y(self, i: usize) -> f64
        requires { i < count self }
        ensures { result ≡ (at self i).y };

    // Whether one of the 16 points before place `to` is near a first key: all are judged at once.
    fn any_near(self, to: usize, key: SoughtKey) -> bool
        requires { (16 ≤ to) × (to ≤ count self) }
        ensures { result ≡ any (λ j. near key.scaled (at self (to - 16 + j)).x) 16 };

    ghost ranged: { (s : Self) (i : ℕ) → i < count s → InRange (at s i) };
}

// The first `used` places of the node list.
// Kept: the list and a count. A slice of the used places would be a `take` of the list in each contract.
#[derive(Clone, Copy)]
pub struct Used<'a> {
    pub nodes: &'a [f64],
    pub used: usize,
    pub ghost usable: { Usable nodes.now used },
}

// The collected nodes, `count` of them, among the first `old` places of the node list.
// Kept: two lists with one count, which are arrays of the call, since there is no heap; the search goes through the x alone.
#[derive(Clone, Copy)]
pub struct Listed<'a> {
    pub nodes: &'a [f64],
    pub old: usize,
    pub numbers: &'a [NodeNumber],
    pub xs: &'a [f64],
    pub count: usize,
    pub ghost usable: { Usable nodes.now old },
    pub ghost lists: { NearbyLists nodes.now old numbers.now xs.now count },
}

impl<'a> Places for Used<'a> {
    ghost at = { λ s i. node_in_of s.nodes.now i };

    ghost count = { λ s. s.used };

    fn len(self) -> usize {
        self.used
    }

    fn x(self, i: usize) -> f64 {
        self.nodes[i * 2]
    }

    fn y(self, i: usize) -> f64 {
        self.nodes[i * 2 + 1]
    }

    // The x of 16 nodes, which stand among their y.
    fn any_near(self, to: usize, key: SoughtKey) -> bool {
        let front = f64x16::from_slice(&self.nodes[(to - 16) * 2..]);
        let back = f64x16::from_slice(&self.nodes[(to - 8) * 2..]);
        let (xs, _) = front.deinterleave(back);
        key.any_of_16_near(xs)
    }

    ghost ranged = { λ s i h. s.usable.ranged i h };
}

impl<'a> Places for Listed<'a> {
    ghost at = { λ s i. node_in_of s.nodes.now (get_or s.numbers.now i 0) };

    ghost count = { λ s. s.count };

    fn len(self) -> usize {
        self.count
    }

    fn x(self, i: usize) -> f64 {
        self.xs[i]
    }

    fn y(self, i: usize) -> f64 {
        let k = self.numbers[i] as usize;
        self.nodes[k * 2 + 1]
    }

    fn any_near(self, to: usize, key: SoughtKey) -> bool {
        key.any_of_16_near(f64x16::from_slice(&self.xs[to - 16..]))
    }

    ghost ranged = { λ s i h. s.usable.ranged (get_or s.numbers.now i 0) (s.lists.low i h) };
}

// Whether the point in place i has the two keys.
fn stands<P: Places>(places: P, i: usize, key: SoughtPoint) -> bool
    requires { i < P.count places }
    ensures { result ≡ has_key (key_of key.x) (key_of key.y) (P.at places i) }
{
    let x = places.x(i);
    let kx = key.x;
    kx.is_near(x) && key.has_key(x, places.y(i))
}

// The first place with the two keys among those from `from` on and before `to`.
fn find_in<P: Places>(places: P, from: usize, to: usize, key: SoughtPoint) -> Option<usize>
    requires { (from ≤ to) × (to ≤ P.count places) }
    ensures { result ≡ found (λ i. has_key (key_of key.x) (key_of key.y) (P.at places i)) from to }
{
    (from..to).find(
        |&i: &usize| -> bool
            requires { i < P.count places }
            ensures { result ≡ has_key (key_of key.x) (key_of key.y) (P.at places i) }
        { stands(places, i, key) },
    )
}

// The same as find_in of at most 16 places. The 16 before `to` are judged first: one that stands before `from` may be near
// and does no harm.
fn find_block<P: Places>(places: P, from: usize, to: usize, key: SoughtPoint) -> Option<usize>
    requires { (from ≤ to) × (to ≤ from + 16) × (16 ≤ to) × (to ≤ P.count places) }
    ensures { result ≡ found (λ i. has_key (key_of key.x) (key_of key.y) (P.at places i)) from to }
{
    if places.any_near(to, key.x) {
        return find_in(places, from, to, key);
    }
    None
}

// The first place with the two keys among those from `from` on. Fewer than 16 are looked at one by one: of a block most
// would stand before `from`; and a pane of a window meets fewer collected nodes.
pub fn find_from<P: Places>(places: P, from: usize, key: SoughtPoint) -> Option<usize>
    requires { from ≤ P.count places }
    ensures { result ≡ found (λ i. has_key (key_of key.x) (key_of key.y) (P.at places i)) from (P.count places) }
{
    let count = places.len();
    if count - from < 16 {
        return find_in(places, from, count, key);
    }
    for start in (from..count).step_by(16) {
        let to = nodes::block_end(start, 16, count);
        if let Some(j) = find_block(places, start, to, key) {
            return Some(j);
        }
    }
    None
}
