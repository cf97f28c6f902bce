// Keys: what a coordinate is rounded to, and a key to look for.
//
// It stands under Nodes: two points whose coordinates have the same keys are one node.

#![tactic(auto)]

ghost use Rattle.std.specs.Prelude.{◌≡◌, ◌≤◌, ◌&&◌, length, unsigned_abs};
ghost use Rattle.std.specs.List.{list_any};
ghost use Rattle.laws.specs.Within.{Within};
ghost use Rattle.laws.specs.Integer.{eq_z};
ghost use Rattle.keys.specs.Keys as Keys;
ghost use Rattle.keys.specs.Keys.{sought_key, key_of, Sought, near};

use std::simd::prelude::*;

// A key to look for, as a coordinate that has it: scaled, and itself. Most searches end before the key is worked out.
#[derive(Clone, Copy)]
pub struct SoughtKey {
    pub scaled: f64,
    pub own: f64,
}

// A coordinate's key; also that of a side of a ring's box, which may lie a unit beyond the sheet. `as` takes no -0.0, and
// a small negative coordinate is rounded to it.
pub fn key(x: f64) -> i64
    requires { Within 1025 x }
    ensures { (result ≡ Keys.key x) × (unsigned_abs result ≤ 102500000000) }
{
    std::num::truncating_f64_to_i64((x * 1.0e8).round())
}

impl SoughtKey {
    pub fn new(x: f64) -> SoughtKey
        requires { Within 1024 x }
        ensures { (result ≡ sought_key x) × Sought result }
    {
        SoughtKey {
            scaled: x * 1.0e8,
            own: x,
        }
    }

    // Whether x is near enough to have this key. That is one comparison, and nearly always it is not.
    pub fn is_near(self, x: f64) -> bool
        ensures { result ≡ near self.scaled x }
    {
        let d = x * 1.0e8 - self.scaled;
        !(d * d >= 8.0)
    }

    // The same of 16 at once: whether one of them is near. A NaN is near, as there.
    pub fn any_of_16_near(self, x: f64x16) -> bool
        requires { length x ≡ 16 }
        ensures { result ≡ list_any (near self.scaled) x }
    {
        let d = x * f64x16::splat(1.0e8) - f64x16::splat(self.scaled);
        let far = (d * d).simd_ge(f64x16::splat(8.0));
        !far.all()
    }

    // Where the two are equal, as nearly always when their keys are, no key is worked out.
    pub fn is_key_of(self, x: f64) -> bool
        requires { Within 1024 x × Sought self }
        ensures { result ≡ eq_z (key_of self) (Keys.key x) }
    {
        x == self.own || (self.is_near(x) && key(x) == key(self.own))
    }
}

// A point to look for: a key for each coordinate.
#[derive(Clone, Copy)]
pub struct SoughtPoint {
    pub x: SoughtKey,
    pub y: SoughtKey,
    pub ghost sought: { Sought x × Sought y },
}

impl SoughtPoint {
    pub fn new(x: f64, y: f64) -> SoughtPoint
        requires { Within 1024 x × Within 1024 y }
        ensures { (result.x ≡ sought_key x) × (result.y ≡ sought_key y) }
    {
        SoughtPoint {
            x: SoughtKey::new(x),
            y: SoughtKey::new(y),
        }
    }

    // Whether the point x, y has the two keys.
    pub fn has_key(self, x: f64, y: f64) -> bool
        requires { Within 1024 x × Within 1024 y }
        ensures { result ≡ (eq_z (key_of self.x) (Keys.key x) && eq_z (key_of self.y) (Keys.key y)) }
    {
        let a = self.x;
        let b = self.y;
        a.is_key_of(x) && b.is_key_of(y)
    }
}
