// Survey: one pass over the used nodes. It tests that their coordinates are on the sheet, as refusal 3 asks, and collects the nodes in a
// ring's box, in which the ring's points are then looked for.
//
// It stands between the node list and the tests of a call: a list too long for the processor's own store is read from memory
// once, by blocks of 8 nodes, which are judged as vectors. Nothing ends the pass, so that the two lists of what was collected
// have one equation whatever the nodes are. specs/Survey has the words for that.

#![tactic(auto)]

ghost use Rattle.std.specs.Prelude.{◌≡◌, ℕ, ◌+◌, ◌*◌, ◌≤◌, ◌<◌, false, length, get_or};
ghost use Rattle.std.specs.Float.{nan};
ghost use Rattle.nodes.specs.Nodes.{most_places};
ghost use Rattle.nodes.specs.Nearby.{most_nearby, in_box, inside, xs_of};
ghost use Rattle.survey.specs.Survey.{laid, survey_of, GoesOn};

use nodes::{MOST_NEARBY, Nearby, NodeNumber, RingBox};
use std::simd::prelude::*;

// Whether all coordinates of the nodes are on the sheet, and the nodes that were collected.
// Kept: no Option of `near`, which the pass has in either case: its promise is one equation, with no case for None.
#[derive(Clone, Copy)]
pub struct NodeSurvey {
    pub on_sheet: bool,
    pub near: Nearby,
}

// Whether of 8 nodes one has its x in the box's span of x, and one its y in that of y: x and y side by side in a vector.
// Promised is the side that the search needs: where it says no, none of them is in the box.
fn any_near(block: &[f64], w: RingBox) -> bool
    requires { length block.now ≡ 16 }
    ensures { result ≡ false → (j : ℕ) → j < 8 → in_box w (get_or block.now (j * 2) nan) (get_or block.now (j * 2 + 1) nan) ≡ false }
{
    let low = f64x2::from_array([w.x.lo, w.y.lo]);
    let high = f64x2::from_array([w.x.hi, w.y.hi]);
    let mut near = Mask::<i64, 2>::splat(false);
    let (pairs, _) = block.as_chunks::<2>();
    for p in pairs {
        let x = f64x2::from_array(*p);
        near |= x.simd_ge(low) & x.simd_le(high);
    }
    near.all()
}

// The nodes from place `from` on that are in the box go after the n collected before.
// Kept: by place, which is the number that is listed; pairs zipped with `from..to` would say the same places twice. And the
// box and the two lists side by side: in a struct that borrows the lists each contract would name all three through it,
// before and after, and say besides that the box stays.
fn collect_in(
    nodes: &[f64],
    from: usize,
    to: usize,
    w: RingBox,
    numbers: &mut [NodeNumber],
    xs: &mut [f64],
    n: usize,
) -> usize
    requires { (to * 2 ≤ length nodes.now) × (to ≤ most_places) × (from ≤ to)
        × (length numbers.old ≡ most_nearby) × (length xs.old ≡ most_nearby) × (n ≤ most_nearby) }
    ensures { GoesOn nodes.now w from numbers.old xs.old n to numbers.new xs.new result }
{
    let mut k = n;
    // Kept: as above.
    for i in from..to {
        let x = nodes[i * 2];
        let y = nodes[i * 2 + 1];
        if w.holds(x, y) {
            if k >= MOST_NEARBY {
                return MOST_NEARBY + 1;
            }
            numbers[k] = i as NodeNumber;
            xs[k] = x;
            k += 1;
        }
    }
    k
}

// The same, unless the lists are full.
fn collect_more(
    nodes: &[f64],
    from: usize,
    to: usize,
    w: RingBox,
    numbers: &mut [NodeNumber],
    xs: &mut [f64],
    n: usize,
) -> usize
    requires { (to * 2 ≤ length nodes.now) × (to ≤ most_places) × (from ≤ to)
        × (length numbers.old ≡ most_nearby) × (length xs.old ≡ most_nearby) }
    ensures { GoesOn nodes.now w from numbers.old xs.old n to numbers.new xs.new result }
{
    if n > MOST_NEARBY {
        return n;
    }
    collect_in(nodes, from, to, w, numbers, xs, n)
}

// The same of 8 nodes, whose coordinates are looked at first: nearly always none of them is in the box.
fn collect_block(
    nodes: &[f64],
    block: &[f64],
    from: usize,
    w: RingBox,
    numbers: &mut [NodeNumber],
    xs: &mut [f64],
    n: usize,
) -> usize
    requires { ((from + 8) * 2 ≤ length nodes.now) × (from + 8 ≤ most_places)
        × (length block.now ≡ 16) × ((j : ℕ) → j < 16 → get_or block.now j nan ≡ get_or nodes.now (from * 2 + j) nan)
        × (length numbers.old ≡ most_nearby) × (length xs.old ≡ most_nearby) }
    ensures { GoesOn nodes.now w from numbers.old xs.old n (from + 8) numbers.new xs.new result }
{
    if !any_near(block, w) {
        return n;
    }
    collect_more(nodes, from, from + 8, w, numbers, xs, n)
}

// The nodes in the first `old` places: whether all their coordinates are on the sheet; and of those in the box the numbers, rising,
// and the x, as many as the two lists hold.
pub fn used_nodes(
    nodes: &[f64],
    old: usize,
    w: RingBox,
    numbers: &mut [NodeNumber],
    xs: &mut [f64],
) -> NodeSurvey
    requires { (old * 2 ≤ length nodes.now) × (old ≤ most_places) × (length numbers.old ≡ most_nearby) × (length xs.old ≡ most_nearby) }
    ensures { (result ≡ survey_of w nodes.now old) × (numbers.new ≡ laid (inside w nodes.now old) numbers.old)
        × (xs.new ≡ laid (xs_of nodes.now (inside w nodes.now old)) xs.old) }
{
    let (blocks, rest) = nodes[..old * 2].as_chunks::<16>();
    let mut out = false;
    let mut count = 0;
    for (b, block) in blocks.iter().enumerate() {
        out |= nodes::any_of_16_out(f64x16::from_array(*block));
        count = collect_block(nodes, block, b * 8, w, numbers, xs, count);
    }
    let near = Nearby {
        ring_box: w,
        old,
        count: collect_more(nodes, blocks.len() * 8, old, w, numbers, xs, count),
    };
    NodeSurvey {
        on_sheet: !(out | nodes::any_out(rest)),
        near,
    }
}
