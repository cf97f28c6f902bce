// Cosine: the cosine of the angle between two steps. It stands above the norms of root, and below the chain and the
// diagonals, which compare it with their limits.
//
// specs/Cosine is 01's; proofs/RustCosine says that it is no NaN, lies in [-1, 1] and is the Rust's.

#![tactic(auto)]

ghost use Rattle.std.specs.Prelude.{◌≡◌};
ghost use Rattle.vector.specs.Size.{SheetStep};
ghost use Rattle.root.specs.Norm.{grid_norm};
ghost use Rattle.cosine.specs.Cosine as Cosine;

use vector::GridPoint;

// A step with its norm, so that a caller that compares one step with several computes its norm once.
#[derive(Clone, Copy)]
pub struct Normed {
    pub step: GridPoint,
    pub norm: f64,
    ghost is_step: { SheetStep step },
    ghost is_norm: { norm ≡ grid_norm step },
}

impl Normed {
    pub fn new(step: GridPoint) -> Normed
        requires { SheetStep step }
        ensures { result.step ≡ step }
    {
        Normed {
            step,
            norm: root::grid_norm(step),
        }
    }
}

// The cosine of the angle between two steps.
#[tactic(auto, using(laws::proofs::Signed::back, laws::proofs::Constants::one_is, laws::proofs::Clamp::sign_clamp), unfolding(crate::specs::Cosine::cosine))]
pub fn cosine(a: Normed, b: Normed) -> f64
    ensures { result ≡ Cosine.cosine a.step b.step }
{
    if a.step.is_zero() || b.step.is_zero() {
        return 1.0;
    }
    let c = vector::in_square_mm(a.step.dot(b.step)) / (a.norm * b.norm);
    c.clamp(-1.0, 1.0)
}
