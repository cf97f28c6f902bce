// Given tests: refusals 13 and 14, of the marks that a caller gives in place of a chain.
//
// It stands before `given`, which takes the marks that have passed. Nothing is asked of what is lent. The definitions are
// those of call's specs/Marked.

#![tactic(auto)]

ghost use Rattle.std.specs.Prelude.{◌≡◌, ◌+◌, ◌*◌, ◌≤◌};
ghost use Rattle.vector.specs.Rings.{most_points};
ghost use Rattle.call.specs.Marked as Marked;

use vector::{MOST_POINTS, Point};

// The marks of a ring's edges as a caller lends them: the kind of each, 0 straight, 1 snapped to its given point, 2 snapped
// to the outline; the points, in mm; and the outline with the number of points of each of its loops.
#[derive(Clone, Copy)]
pub struct Marking<'a> {
    pub kinds: &'a [u8],
    pub snaps: &'a [f64],
    pub outline: &'a [i32],
    pub loops: &'a [u32],
}

// A mark that is of no kind, or whose given point is out of limits.
// Kept: the kinds are the bytes of the C interface, and each of three places asks another thing of them: this one, `called_for`
// and given's one `match`. An enum would be made of each byte first, where one of no kind is refused here.
#[tactic(auto, unfolding(call::specs::Marked::mark_out))]
fn mark_out(kind: u8, p: Point) -> bool
    ensures { result ≡ Marked.mark_out kind p }
{
    2 < kind || kind == 1 && !(nodes::is_on_sheet(p.x) && nodes::is_on_sheet(p.y))
}

// 13: the marks of a ring of n points. The given point of a mark that is not of kind 1 may be anything.
#[tactic(auto, unfolding(call::specs::Marked::marks_out))]
pub fn marks_out(n: usize, marking: Marking<'_>) -> bool
    requires { n ≤ most_points }
    ensures { result ≡ Marked.marks_out marking.entry.kinds.now marking.entry.snaps.now n }
{
    let Marking { kinds, snaps, .. } = marking;
    kinds.len() != n
        || snaps.len() != n * 2
        || kinds
            .iter()
            .enumerate()
            .any(|(i, &kind)| mark_out(kind, nodes::point_at(snaps, i)))
}

// Whether some mark snaps to the outline.
pub fn called_for(kinds: &[u8]) -> bool
    ensures { result ≡ Marked.called_for kinds.now }
{
    kinds.contains(&2)
}

// Loops that have under 3 points, or do not add up to n, at most 60. The sum stops past 60, so that it does not wrap.
#[tactic(auto, using(crate::proofs::Scans::loop_short, crate::proofs::Scans::sum_next, crate::proofs::Scans::loops_over, crate::proofs::Scans::loops_sum))]
fn loops_out(loops: &[u32], n: usize) -> bool
    requires { n ≤ most_points }
    ensures { result ≡ Marked.loops_out loops.now n }
{
    let mut total: usize = 0;
    for m in loops {
        if *m < 3 {
            return true;
        }
        total += *m as usize;
        if MOST_POINTS < total {
            return true;
        }
    }
    total != n
}

// 14: the outline, where it is called for. Where it is not, it may be anything.
#[tactic(auto, unfolding(call::specs::Marked::outline_out))]
pub fn outline_out(marking: Marking<'_>) -> bool
    ensures { result ≡ Marked.outline_out marking.entry.kinds.now marking.entry.outline.now marking.entry.loops.now }
{
    let n = marking.outline.len() / 2;
    called_for(marking.kinds)
        && (marking.outline.len() % 2 != 0
            || n == 0
            || MOST_POINTS < n
            || loops_out(marking.loops, n)
            || lent_points::any_outside(marking.outline))
}
