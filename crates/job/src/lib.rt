// Job: the ring of a job that waits for its chain, divided when the chain is there. It stands above state and divider, and
// below step, which takes a block's bytes.
//
// specs/Step says what one step leaves and tells, and specs/Run what the program prints as one definition, `printed`, from the
// bytes that go in to those that come out.

#![tactic(auto)]

ghost use Rattle.std.specs.Prelude.{◌≡◌, ◌*◌, ◌≤◌, ◌<◌, length, take};
ghost use Rattle.table.specs.Answers as Answers;
ghost use Rattle.job.specs.Step.{no_cells, divides, Steps, CanStep};

use nodes::NodeNumber;
use state::State;
use table::Answer;
use told::Told;

// The state after a step, and what it tells of its block.
#[derive(Clone, Copy)]
pub struct Stepped {
    pub state: State,
    pub told: Told,
}

// The count of nodes that an answer leaves listed.
fn listed(answer: Answer) -> usize
    ensures { result ≡ (Answers.values answer).nodes }
{
    match answer {
        Answer::Divided { nodes, .. }
        | Answer::Refused { nodes, .. }
        | Answer::Failed { nodes, .. } => nodes,
    }
}

// Divides the ring that waits, with the first `run` points of a chain, over the node list and the empty cell list. It is never
// merged into the loop of a run, so that what the way of a ring needs on the stack is not there beside the text.
#[inline(never)]
pub fn divide_ring(
    s: State,
    ring: &[i32],
    chain: &[i32],
    run: usize,
    nodes: &mut [f64],
    rims: &mut [u8],
    cells: &mut [NodeNumber],
) -> Stepped
    requires { CanStep s ring.now × (cells.old ≡ no_cells) × (s.block < 65536) × (run ≤ 60) × (length chain.now ≡ 120) }
    ensures { Steps (divides s ring.now nodes.old rims.old (take (run * 2) chain.now)) result
        ring.now nodes.new rims.new cells.new }
{
    let end = s.count * 2;
    let stop = run * 2;
    let used = s.used;
    let answer = divider::divide(
        &ring[..end],
        &chain[..stop],
        s.size,
        nodes,
        used,
        rims,
        cells,
        0,
    );
    let told = Told::Ring {
        ring: u64::from(s.block / 2),
        used,
        answer,
    };
    let next = s.block + 1;
    let state = State {
        block: next,
        used: listed(answer),
        ended: false,
        ..s
    };
    Stepped { state, told }
}
