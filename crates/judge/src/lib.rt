// Judge: what the ends and the two cosines say of a diagonal, whether it may be taken and the larger cosine, by which the best is
// chosen.
//
// It stands on cosine and on limits; the diagonal asks it of each one before it looks for what stands in the way.

#![tactic(auto)]

ghost use Rattle.std.specs.Prelude.{◌≡◌, ◌&&◌};
ghost use Rattle.vector.specs.Size.{OnSheet};
ghost use Rattle.vector.specs.Grid.{sub};
ghost use Rattle.cosine.specs.Cosine.{cosine};
ghost use Rattle.judge.specs.Judge as Judge;

use cosine::Normed;
use limits::Limits;
use vector::GridPoint;

// Kept: f64::max takes the other number where one is no number, and of two zeros either; this is the comparison alone.
#[tactic(auto, unfolding(crate::specs::Judge::larger))]
fn larger(x: f64, y: f64) -> f64
    ensures { result ≡ Judge.larger x y }
{
    if x < y { y } else { x }
}

#[tactic(auto, using(laws::proofs::Booleans::and_comm), unfolding(crate::specs::Judge::in_range, limits::specs::Sets::between))]
fn in_range(limits: Limits, c: f64) -> bool
    ensures { result ≡ Judge.in_range limits c }
{
    limits::between(limits.least, limits.greatest, c)
}

// The cosines of the diagonal from o to q with the two steps from o.
#[derive(Clone, Copy)]
pub struct Cosines {
    pub next: f64,
    pub prev: f64,
}

impl Cosines {
    pub fn of(o: GridPoint, q: GridPoint, next: Normed, prev: Normed) -> Cosines
        requires { OnSheet o × OnSheet q }
        ensures { result ≡ record { next = cosine next.step (sub q o); prev = cosine prev.step (sub q o) } }
    {
        let d = Normed::new(q.sub(o));
        Cosines {
            next: cosine::cosine(next, d),
            prev: cosine::cosine(prev, d),
        }
    }

    // The larger of the two, by which the best diagonal is chosen.
    pub fn larger(self) -> f64
        ensures { result ≡ Judge.larger self.next self.prev }
    {
        larger(self.next, self.prev)
    }

    fn between(self, limits: Limits) -> bool
        ensures { result ≡ (Judge.in_range limits self.next && Judge.in_range limits self.prev) }
    {
        in_range(limits, self.next) && in_range(limits, self.prev)
    }
}

// The larger cosine of the diagonal from o to q, if it may be taken: its ends differ, and both cosines are between the limits.
// `next` and `prev` are the steps from o to the next corner and to the one before.
#[tactic(auto, using(vector::proofs::Same::derived_same), unfolding(crate::specs::Judge::judged))]
pub fn judge(limits: Limits, o: GridPoint, q: GridPoint, next: Normed, prev: Normed) -> Option<f64>
    requires { OnSheet o × OnSheet q }
    ensures { result ≡ Judge.judged limits o q next.step prev.step }
{
    if o == q {
        return None;
    }
    let c = Cosines::of(o, q, next, prev);
    c.between(limits).then_some(c.larger())
}
