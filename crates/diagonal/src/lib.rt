// Diagonal: the diagonal along which a part is cut.
//
// It stands between the corner, which says where a part is bad, and the split, which cuts it there. The points of the part
// are counted from its worst corner, so that every diagonal goes from corner 0 to a corner k. What is cheap and decides most
// comes first, the two cosines against the best so far (judge); only for a diagonal that would win it is asked whether anything stands
// in its way (obstacles).

#![tactic(auto)]

ghost use Rattle.std.specs.Prelude.{◌≡◌, ◌-◌, ◌≤◌, length};
ghost use Rattle.vector.specs.Rings.{OnSheetPoints};
ghost use Rattle.diagonal.specs.Diagonal as Diagonals;
ghost use Rattle.diagonal.specs.Answer.{answer};
ghost use Rattle.diagonal.specs.Best.{wins};

use cosine::Normed;
use limits::Limits;
use vector::GridPoint;

// The best diagonal so far: the corner where it ends, and its larger cosine.
#[derive(Clone, Copy)]
struct Best {
    at: usize,
    score: f64,
}

// Whether a diagonal would win over the best so far: on a tie the earlier one stays.
fn improves(score: f64, best: Option<Best>) -> bool
    ensures { result ≡ wins score best }
{
    best.is_none_or(|b| score < b.score)
}

// The corner where the best of the diagonals from corner 0 of a part of n corners to its corners 2 .. n - 2 ends, if one meets the rule.
pub fn best_diagonal(limits: Limits, part: &[GridPoint]) -> Option<usize>
    requires { OnSheetPoints part.now × (3 ≤ length part.now) }
    ensures { answer result ≡ Diagonals.best_to limits part.now (length part.now - 3) }
{
    let n = part.len();
    let o = part[0];
    let next = Normed::new(part[1].sub(o));
    let prev = Normed::new(part[n - 1].sub(o));
    let mut best: Option<Best> = None;
    // Kept: the range says which corners are asked, from 2 to n - 2. Over the part's points, of which this reads one a turn, it would
    // be `enumerate().take(n - 1).skip(2)`, for a k that is needed all the same.
    for k in 2..n - 1 {
        if let Some(score) = judge::judge(limits, o, part[k], next, prev) {
            if improves(score, best) && obstacles::is_unobstructed(part, k) {
                best = Some(Best { at: k, score });
            }
        }
    }
    best.map(|b| b.at)
}
