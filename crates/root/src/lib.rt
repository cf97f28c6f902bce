// The square root of IEEE 754-2019 for every double, rounded to nearest, in integers alone: `root` over doubles and
// `root_bits` over their bit patterns; and the lengths that use it, `norm` and `dist`, over nodes and over the grid. It
// stands below the chain, the cleaning, the split and the cells, whose distances and cosines rest on it.

#![tactic(auto)]

ghost use Rattle.std.specs.Prelude.{◌≡◌, ◌*◌, ◌^◌, ◌≤◌, ◌<◌};
ghost use Rattle.std.specs.Float.{binary64};
ghost use Rattle.std.specs.Float.Ieee.{of_bits};
ghost use Rattle.laws.specs.Double.{◌≤f◌};
ghost use Rattle.vector.specs.Size.{OnSheet, SheetStep};
ghost use Rattle.root.specs.Root.{IsRoot, root_of, root_bits};
ghost use Rattle.root.specs.Norm as Norm;

use vector::{GridPoint, Point};

// The whole part of n's root, 27 digits. The guess is a parabola within 0.6 % of the root, and each of Heron's two
// steps squares that error, so that they end at the whole part or one above. The proof rests on neither: a step from
// any guess gives no less than the whole part, and the loop walks down to it.
fn root_head(n: u64) -> u64
    requires { (2 ^ 52 ≤ n) × (n < 2 ^ 54) }
    ensures { IsRoot n result }
{
    let x = n / 0x1_0000_0000;
    let h = 35300173 - x * 2653490 / 0x10_0000;
    let g = 34799785 + x * h / 0x10_0000;
    let f = (g + n / g) / 2;
    let mut a = (f + n / f) / 2;
    // Kept: a while, since it walks down to the answer, the first whose square is at most n. `(0..=a).rev().find(..)` would answer
    // an Option that is never None.
    while n < a * a {
        a -= 1;
    }
    a
}

// The whole part of the root of n * 2 ^ 54, 54 digits, with no product beyond 64 bits: the first 27 are n's own root,
// and one division of what that leaves gives the other 27, or one too many (Zimmermann's Karatsuba square root).
fn root_digits(n: u64) -> u64
    requires { (2 ^ 52 ≤ n) × (n < 2 ^ 54) }
    ensures { IsRoot (n * 2 ^ 54) result }
{
    let a = root_head(n);
    let u = (n - a * a) * 0x800_0000;
    let c = a * 2;
    let b = u / c;
    let v = u % c;
    let s = a * 0x800_0000 + b;
    if v * 0x800_0000 < b * b { s - 1 } else { s }
}

// The root of a finite double above zero, from pattern to pattern. The value is m * 2 ^ k times the smallest one; the
// leading zeros of m decide the scale that brings a normal and a subnormal m alike to 53 digits, or to 54 where only
// that leaves an even exponent to halve. The 54th digit of the root rounds it: no root lies midway between two doubles.
// The leading digit of the rounded significand adds one to the exponent's field.
fn root_positive(b: u64) -> u64
    requires { (0 < b) × (b < 0x7ff0_0000_0000_0000) }
    ensures { (of_bits binary64 result ≡ root_of (of_bits binary64 b)) × (result < 0x7ff0_0000_0000_0000) }
{
    let f = b / 0x10_0000_0000_0000;
    let t = b % 0x10_0000_0000_0000;
    let mut m = t;
    let mut k: u64 = 0;
    if 0 < f {
        m = t + 0x10_0000_0000_0000;
        k = f - 1;
    }
    let z = u64::from(m.leading_zeros());
    let e = k + 63 - z;
    let n = m << (z - 11 + e % 2);
    let s = root_digits(n);
    (e / 2 + 485) * 0x10_0000_0000_0000 + (s + 1) / 2
}

// Over bit patterns, where every bit of the answer is promised: both zeros and +infinity give themselves, and a NaN or
// what is below zero gives the one NaN 7FF8000000000000.
#[tactic(auto, using(crate::proofs::Cases::zero_bits, crate::proofs::Cases::positive_bits, crate::proofs::Cases::infinite_bits, crate::proofs::Cases::nan_bits_lem))]
pub fn root_bits(b: u64) -> u64
    ensures { result ≡ root_bits b }
{
    if b % 0x8000_0000_0000_0000 == 0 {
        return b; // a zero keeps its sign
    }
    if b < 0x7ff0_0000_0000_0000 {
        return root_positive(b);
    }
    if b == 0x7ff0_0000_0000_0000 {
        return b;
    }
    0x7ff8_0000_0000_0000
}

// Over doubles. The logic has one NaN, whose bits no promise over f64 can name; `root_bits` names them.
pub fn root(x: f64) -> f64
    ensures { result ≡ root_of x }
{
    if x > 0.0 {
        let b = x.to_bits();
        if b < 0x7ff0_0000_0000_0000 {
            return f64::from_bits(root_positive(b));
        }
        return x; // infinity gives itself
    }
    if x == 0.0 {
        return x; // a zero keeps its sign
    }
    f64::NAN
}

// The length of v, and the distance of two points, in mm.
#[tactic(auto, unfolding(crate::specs::Norm::norm))]
pub fn norm(v: Point) -> f64
    ensures { result ≡ Norm.norm v }
{
    root(v.dot(v))
}

#[tactic(auto, unfolding(crate::specs::Norm::dist))]
pub fn dist(a: Point, b: Point) -> f64
    ensures { result ≡ Norm.dist a b }
{
    norm(a.sub(b))
}

// The same over the grid, in mm: the squares are summed exactly, in units, before the one division and the root.
// Kept: one line each beside `norm` and `dist`. A trait over both kinds of points would need a ghost member for what the grid's
// lengths ask, a step of the sheet, one for the square and one for the difference, and two impls of three methods.
#[tactic(auto, using(laws::proofs::Signed::back), unfolding(crate::specs::Norm::grid_norm))]
pub fn grid_norm(v: GridPoint) -> f64
    requires { SheetStep v }
    ensures { result ≡ Norm.grid_norm v }
{
    root(vector::in_square_mm(v.dot(v)))
}

#[tactic(auto, unfolding(crate::specs::Norm::grid_dist))]
pub fn grid_dist(a: GridPoint, b: GridPoint) -> f64
    requires { OnSheet a × OnSheet b }
    ensures { result ≡ Norm.grid_dist a b }
{
    grid_norm(a.sub(b))
}

// Whether a root, or a distance, is at most t. From 2 ^ -24 on no root is below 2 ^ -12, so that a t below that, as the
// tolerance of every sheet is, needs no root to be taken where the points are not close.
fn root_at_most(x: f64, t: f64) -> bool
    ensures { result ≡ (root_of x ≤f t) }
{
    if 5.9604644775390625e-8 <= x && t < 2.44140625e-4 {
        return false;
    }
    root(x) <= t
}

#[tactic(auto, unfolding(crate::specs::Norm::dist, crate::specs::Norm::norm))]
pub fn dist_at_most(a: Point, b: Point, t: f64) -> bool
    ensures { result ≡ (Norm.dist a b ≤f t) }
{
    let v = a.sub(b);
    root_at_most(v.dot(v), t)
}

// Kept: beside the one before, as `grid_dist` beside `dist`.
#[tactic(auto, using(laws::proofs::Signed::back), unfolding(crate::specs::Norm::grid_dist, crate::specs::Norm::grid_norm))]
pub fn grid_dist_at_most(a: GridPoint, b: GridPoint, t: f64) -> bool
    requires { OnSheet a × OnSheet b }
    ensures { result ≡ (Norm.grid_dist a b ≤f t) }
{
    let v = a.sub(b);
    root_at_most(vector::in_square_mm(v.dot(v)), t)
}
