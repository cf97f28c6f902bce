// Paper: the practice paper, for rings and chains of at most 24 points and 12 cuts: its own test, 16, and what is claimed of
// its call.
//
// It stands above the definitions of the divider's call and below practice, which makes it. specs/Practice has the promise of
// that call and the claim that both entries divide alike, proved here of the definitions.

#![tactic(auto)]

ghost use Rattle.std.specs.Prelude.{◌≡◌, ◌&&◌, ◌||◌, not, ◌/◌, ◌%◌, eqb};
ghost use Rattle.call.specs.Call as Call;

// 16, where 1 does not come first. Of the ring's numbers and the chain's, two a point.
#[tactic(auto, unfolding(call::specs::Call::over24))]
pub fn over_paper(ring: usize, chain: usize) -> bool
    ensures { result ≡ (not (not (eqb (ring % 2) 0) || not (eqb (chain % 2) 0) || Call.counts_out (ring / 2) (chain / 2))
        && Call.over24 (ring / 2) (chain / 2)) }
{
    !lent_points::counts_out(ring, chain) && (24 < ring / 2 || 24 < chain / 2)
}
