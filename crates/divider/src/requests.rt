// Requests: a ring and what its edges' marks come from.
//
// The steps of a call are the same whatever the marks come from: a chain, here, or the caller, in `marked`.

ghost use Rattle.std.specs.Prelude.{ℕ, ◌≡◌, ◌/◌, length};
ghost use Rattle.chain.specs.Chain.{simplify_chain};
ghost use Rattle.clean.specs.Clean.{clean_polygon};
ghost use Rattle.marks.specs.Part as Rings;
ghost use Rattle.marks.specs.Marks.{marked};
ghost use Rattle.limits.specs.declared.Limits as Sets;
ghost use Rattle.nodes.specs.Nearby.{Framed};
ghost use Rattle.table.specs.Answers.{code_of};
ghost use Rattle.call.specs.Marked.{all_points};
ghost use Rattle.entry.specs.Refusal.{points_refusal};
ghost use Rattle.divider.specs.Steps.{Passing, Prepares};

use limits::Limits;
use marks::MarkedRing;
use nodes::RingBox;
use table::Refusal;

// What a call asks to be divided. Its ghost members say what its tests answer and what ring the core gets.
pub trait Request: Copy {
    // The number of the first test that refuses it, of those before the tests of the lists; or 0.
    ghost early: { Sets.Limits → Self → ℕ };

    // How many points its ring has.
    ghost points: { Self → ℕ };

    // The ring, cleaned, with its marks.
    ghost part: { Self → Rings.Part };

    // The tests before those of the lists. What passes them can be prepared.
    fn refusal(self, limits: Limits) -> Result<(), Refusal>
        ensures code { code_of result ≡ early limits self }
        ensures passing { early limits self ≡ 0 → Passing limits (points self) (part self) };

    fn own(self) -> usize
        ensures { result ≡ points self };

    // The box in which used nodes are collected.
    fn ring_box(self, limits: Limits) -> RingBox
        ensures { Framed result };

    fn prepared(self) -> MarkedRing
        requires { (L : Sets.Limits) × (early L self ≡ 0) }
        ensures { Prepares (part self) result };
}

// A ring whose edges the chain marks.
#[derive(Clone, Copy)]
pub struct ByChain<'a> {
    pub ring: &'a [i32],
    pub chain: &'a [i32],
    pub size: u32,
}

impl<'a> Request for ByChain<'a> {
    ghost early = { λ L s. points_refusal L s.ring.now s.chain.now s.size };

    ghost points = { λ s. length s.ring.now / 2 };

    ghost part = { λ s. marked (simplify_chain (all_points s.chain.now)) (clean_polygon s.size (all_points s.ring.now)) };

    fn refusal(self, limits: Limits) -> Result<(), Refusal> {
        entry::points_refusal(limits, self.ring, self.chain, self.size)
    }

    fn own(self) -> usize {
        self.ring.len() / 2
    }

    fn ring_box(self, limits: Limits) -> RingBox {
        extent::ring_box(self.ring, self.chain)
    }

    fn prepared(self) -> MarkedRing {
        let n = self.ring.len() / 2;
        let m = self.chain.len() / 2;
        let own = lent_points::points(self.ring, n);
        let clean = clean::clean_polygon(&own, self.size);
        let run = lent_points::points(self.chain, m);
        let simplified = chain::simplify_chain(run.as_slice());
        let edges = marks::mark_edges(clean.ring.as_slice(), &simplified);
        MarkedRing {
            ring: clean.ring,
            edges,
        }
    }
}
