// On the sheet: whether all numbers of a list are coordinates that a node may have.

ghost use Rattle.std.specs.Prelude.{◌≡◌, not, ◌||◌, false, length};
ghost use Rattle.std.specs.List.{fold};
ghost use Rattle.nodes.specs.Flat as Flat;

use std::simd::prelude::*;

// Whether a number is such a coordinate: finite and within 1,024 mm.
pub fn is_on_sheet(x: f64) -> bool
    ensures { result ≡ Flat.on_sheet x }
{
    (-1024.0..=1024.0).contains(&x)
}

// Whether one of some numbers is not on the sheet.
pub fn any_out(l: &[f64]) -> bool
    ensures { result ≡ fold (λ b x. b || not (Flat.on_sheet x)) false l.now }
{
    l.iter().fold(false, |found, x| found | !is_on_sheet(*x))
}

// The same of 16, which are judged at once: `survey` takes the used nodes so.
pub fn any_of_16_out(x: f64x16) -> bool
    requires { length x ≡ 16 }
    ensures { result ≡ fold (λ b x. b || not (Flat.on_sheet x)) false x }
{
    let low = f64x16::splat(-1024.0);
    let high = f64x16::splat(1024.0);
    let above = x.simd_ge(low);
    let below = x.simd_le(high);
    !(above & below).all()
}

// Whether all are finite and within 1,024 mm: 01's refusal 3 asks it of every used node. It ends at the first block that has one
// which is not, so that a bad list is refused as soon as that.
pub fn all_on_sheet(l: &[f64]) -> bool
    ensures { result ≡ Flat.all_on_sheet l.now (length l.now) }
{
    let (blocks, rest) = l.as_chunks::<16>();
    // Kept: a `for`, since a closure would not know that a block has 16 numbers.
    for block in blocks {
        if any_of_16_out(f64x16::from_array(*block)) {
            return false;
        }
    }
    !any_out(rest)
}
