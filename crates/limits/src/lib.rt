// Limits: the limits that decide what is cut and what snaps, held together as one set of values; which sets a divider call
// takes, refusal 15; and the sets on delivery and of the practice paper.
//
// Glass differs in how sharp a corner it takes, so a caller may hand over a set of its own. It stands below all that reads a
// limit: the corner, the diagonal, the split, the cells, and the definition of the call.

#![tactic(auto)]

ghost use Rattle.std.specs.Prelude.{◌≡◌};
ghost use Rattle.limits.specs.Limits.{delivered};
ghost use Rattle.limits.specs.Sets as Sets;

#[derive(Clone, Copy)]
pub struct Limits {
    // the most cuts
    pub cuts: usize,
    // a corner is bad if its measure is above this
    pub corner: f64,
    // a diagonal's two cosines lie between these
    pub least: f64,
    pub greatest: f64,
    // a snap point is too far if its distance from the middle is above this share of the chord
    pub share: f64,
}

impl Limits {
    pub const CUTS: usize = 32;

    // The tangent of 20 degrees, by which a corner of 160 degrees falls short of straight.
    const TANGENT: f64 = 0.36397023426620236;

    pub const BAD: f64 = 2.0 - Limits::TANGENT / (1.0 + Limits::TANGENT);

    // The cosines of 160 and of 12 degrees.
    pub const LEAST: f64 = -0.9396926207859084;

    pub const GREATEST: f64 = 0.9781476007338057;

    pub const SHARE: f64 = 0.4;

    pub const DELIVERED: Limits = Limits {
        cuts: Limits::CUTS,
        corner: Limits::BAD,
        least: Limits::LEAST,
        greatest: Limits::GREATEST,
        share: Limits::SHARE,
    };

    // The set on delivery.
    #[tactic(auto, using(crate::proofs::Delivered::code_is))]
    pub fn on_delivery() -> Limits
        ensures { result ≡ delivered }
    {
        Limits::DELIVERED
    }
}

// A value is between two, ends allowed. A NaN is not.
#[tactic(auto, using(laws::proofs::Ranges::contains_is), unfolding(crate::specs::Sets::between))]
pub fn between(low: f64, high: f64, x: f64) -> bool
    ensures { result ≡ Sets.between low high x }
{
    (low..=high).contains(&x)
}

// The cosines of a diagonal: each between -1 and 1, and the least not above the greatest.
#[tactic(auto, using(laws::proofs::Constants::one_is, crate::proofs::Literals::minus_one_is), unfolding(crate::specs::Sets::cosines_out))]
fn cosines_out(least: f64, greatest: f64) -> bool
    ensures { result ≡ Sets.cosines_out least greatest }
{
    !between(-1.0, 1.0, least) || !between(-1.0, 1.0, greatest) || greatest < least
}

// 15: the set of limits.
#[tactic(auto, using(laws::proofs::Constants::zero_bits, laws::proofs::Constants::one_is, laws::proofs::Constants::two_bits), unfolding(crate::specs::Sets::limits_out))]
pub fn limits_out(limits: Limits) -> bool
    ensures { result ≡ Sets.limits_out limits }
{
    32 < limits.cuts
        || !between(1.0, 2.0, limits.corner)
        || cosines_out(limits.least, limits.greatest)
        || !between(0.0, 1.0, limits.share)
}

// The set of the practice paper: the one on delivery with 12 cuts.
pub fn practice() -> Limits
    ensures { result ≡ Sets.practice_set }
{
    Limits {
        cuts: 12,
        ..Limits::on_delivery()
    }
}
