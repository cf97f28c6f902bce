// Practice: the divider call of the practice paper, for rings and chains of at most 24 points and 12 cuts.
//
// It stands beside the examination's entry, over the same divider: it tests its own counts, 16, in paper, and hands the call
// over with its own set of limits. paper's specs/Practice has its promise and the claim that both entries divide alike.

#![tactic(auto)]

ghost use Rattle.table.specs.Answers as Answers;
ghost use Rattle.call.specs.Lent.{lent};
ghost use Rattle.paper.specs.Practice.{PracticePromise};

use nodes::NodeNumber;
use table::{Answer, Refusal};

// The divider call of the practice paper, over the lists that the caller lends.
// Kept: an entry of its own, which C has too. `divide_set` with the paper's set is not it, since it leaves out 16, and with a
// flag for the paper its promise would be one of two.
pub fn divide_practice(
    ring: &[i32],
    chain: &[i32],
    size: u32,
    nodes: &mut [f64],
    node_count: usize,
    rims: &mut [u8],
    cells: &mut [NodeNumber],
    cell_count: usize,
) -> Answer
    ensures { PracticePromise (lent ring.now chain.now size nodes.old node_count rims.old
        cells.old cell_count) (Answers.values result) nodes.new rims.new cells.new }
{
    if paper::over_paper(ring.len(), chain.len()) {
        return Answer::Refused {
            why: Refusal::Practice,
            nodes: node_count,
            cells: cell_count,
        };
    }
    divider::divide_set(
        limits::practice(),
        ring,
        chain,
        size,
        nodes,
        node_count,
        rims,
        cells,
        cell_count,
    )
}
