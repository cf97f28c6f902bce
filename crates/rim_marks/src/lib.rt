// Rim marks: those of new nodes cleared, and those of a piece's corners and of its ring edges' middles set.
//
// It stands under Cells: each attempt at a piece calls it once, when its nodes are listed. The marks are a lent list beside the
// nodes, one a place. What an attempt's marks mean is said in Cells (specs/Rims).

#![tactic(auto)]

ghost use Rattle.std.specs.Prelude.{◌≡◌, ◌≤◌, length};
ghost use Rattle.quads.specs.Flat.{ListedTo};
ghost use Rattle.rim_marks.specs.Marking.{set_at, rim_marks};

use nodes::NodeNumber;
use quads::Round;
use vector::MOST_POINTS;

// Those of these nodes set, where they are on the rim.
#[tactic(auto, unfolding(crate::specs::Marking::set_at))]
fn set_rims(rims: &mut [u8], list: &[NodeNumber], on: &[bool])
    requires { (length list.now ≤ length on.now) × ListedTo (length rims.old) list.now (length list.now) }
    ensures { rims.new ≡ set_at rims.old list.now on.now (length list.now) }
{
    for (k, is_on) in list.iter().zip(on) {
        if *is_on {
            rims[*k as usize] = 1;
        }
    }
}

// The marks after an attempt that found u nodes and left v: a corner is on the rim, and so is the middle of a ring edge. A
// new node that is neither has its mark cleared, and an old one keeps it.
pub fn mark_rims(rims: &mut [u8], u: usize, v: usize, round: &Round<'_>, sides: &[bool])
    requires { (u ≤ v) × (v ≤ length rims.old) × ListedTo v round.now.middles.now (length round.now.middles.now)
        × ListedTo v round.now.corners.now (length round.now.middles.now) × (length round.now.middles.now ≤ length sides.now) }
    ensures { rims.new ≡ rim_marks rims.old u v round.now.corners.now round.now.middles.now sides.now
        (length round.now.middles.now) }
{
    rims[u..v].fill(0);
    set_rims(rims, round.corners, &[true; MOST_POINTS]);
    set_rims(rims, round.middles, sides);
}
