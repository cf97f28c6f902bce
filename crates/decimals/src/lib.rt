// Decimals: a coordinate in mm as it is shown, with four decimals. It stands above text and below what shows coordinates: the cell
// sheet (listing) and the picture (svg).
//
// A coordinate is shown as the whole number of ten-thousandths of a mm nearest to the exact value of its double, ties to
// even. It is worked out from the double's fields in integers of 64 bits.

#![tactic(auto)]

ghost use Rattle.std.specs.Prelude.{◌≡◌, ◌^◌, ◌<◌};
ghost use Rattle.laws.specs.Within.{Within};
ghost use Rattle.text.specs.Page.{Room, Wrote};
ghost use Rattle.decimals.specs.Rounded as Rounded;
ghost use Rattle.decimals.specs.Shown as Shown;

use std::cmp::Ordering;
use text::Page;

// A coordinate in mm as it is shown: so many ten-thousandths, with a minus or without.
// Kept: the number holds with a sign and without, so that an enum would hold it in both of its cases.
#[derive(Clone, Copy)]
pub struct Decimal {
    pub minus: bool,
    pub parts: u64,
}

// p / 2^s to the nearest whole number, ties to even.
pub fn half_even(p: u64, s: u64) -> u64
    requires { (p < 2 ^ 63) × (s < 64) }
    ensures { result ≡ Rounded.half_even p (2 ^ s) }
{
    let d: u64 = 1 << s;
    let q = p / d;
    match (p % d * 2).cmp(&d) {
        Ordering::Less => q,
        Ordering::Equal => q + q % 2,
        Ordering::Greater => q + 1,
    }
}

// How many ten-thousandths x has. With the field f and the digits t it is (2^52 + t) * 2^(f - 1075), and ten thousand times
// that is (2^52 + t) * 625 over 2^(1071 - f). Where f is below 1008 that is less than a half.
pub fn ten_thousandths(x: f64) -> u64
    requires { Within 1024 x }
    ensures { result ≡ Rounded.ten_thousandths x }
{
    let b = x.to_bits();
    let f = b % 0x8000_0000_0000_0000 / 0x10_0000_0000_0000;
    let t = b % 0x10_0000_0000_0000;
    if f < 1008 {
        return 0;
    }
    half_even((0x10_0000_0000_0000 + t) * 625, 1071 - f)
}

impl Decimal {
    // What is shown of x.
    #[tactic(auto, using(crate::proofs::Value::no_minus, crate::proofs::Value::the_minus))]
    pub fn of(x: f64) -> Decimal
        requires { Within 1024 x }
        ensures { (result.minus ≡ Rounded.minus x) × (result.parts ≡ Rounded.ten_thousandths x) }
    {
        let n = ten_thousandths(x);
        Decimal {
            minus: n != 0 && x < 0.0,
            parts: n,
        }
    }

    // With four decimals.
    #[tactic(auto, unfolding(crate::specs::Shown::decimals, text::specs::Text::bytes))]
    pub fn put(self, page: &mut Page)
        requires { Room page.old (Shown.decimals self.minus self.parts) }
        ensures { Wrote page.old (Shown.decimals self.minus self.parts) page.new }
    {
        let n = self.parts;
        let numbers = &[n / 10000, n / 1000 % 10, n / 100 % 10, n / 10 % 10, n % 10];
        // Kept: two calls, each of a form that is known, so that no byte of it is looked at when it runs.
        if self.minus {
            return page.filled(b"-#.####", numbers);
        }
        page.filled(b"#.####", numbers);
    }
}
