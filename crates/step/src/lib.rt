// Step: one step of a run, from the bytes of a block to what is told of it. It stands above blocks and job, and below the run
// that reads and writes.
//
// A step is proved equal to job's definition, `step_of`: the state it answers and what it tells, every double of the node list,
// every rim mark and every number of the cell list.

#![tactic(auto)]

ghost use Rattle.std.specs.Prelude.{◌≡◌, List, ℕ, ◌≤◌, ◌<◌, length, ℤ, Float};
ghost use Rattle.blocks.specs.Blocks.{points};
ghost use Rattle.job.specs.Step.{no_cells, ends, waits, taken, step_of, Steps, CanStep};
ghost use Rattle.job.specs.Run.{Bytes};
ghost use Rattle.told.specs.Text.{tells_of, Printable};

use blocks::{Block, Reading};
use job::Stepped;
use nodes::NodeNumber;
use state::State;
use told::Told;

// The run ends, and this is the last that it tells: a refused block, or nothing.
#[tactic(auto, unfolding(job::specs::Step::ends))]
fn end(s: State, told: Told) -> Stepped
    requires { Printable (tells_of told) no_cells }
    ensures { (ps : List ℤ) (l : List Float) (rs : List ℕ) → Steps (ends s ps l rs (tells_of told)) result ps l rs no_cells }
{
    Stepped {
        state: s.closed(),
        told,
    }
}

// A ring block: its ring waits for its chain.
#[tactic(auto, unfolding(job::specs::Step::waits))]
fn wait(s: State, count: usize, size: u32, points: &[i32], ring: &mut [i32]) -> Stepped
    requires { (length ring.old ≡ 120) × (length points.now ≡ 120) × (s.block < 65536) }
    ensures { (l : List Float) (rs : List ℕ) → Steps (waits s l rs count size points.now) result
        ring.new l rs no_cells }
{
    ring.copy_from_slice(points);
    let state = State {
        block: s.block + 1,
        count,
        size,
        ended: false,
        ..s
    };
    Stepped {
        state,
        told: Told::Nothing,
    }
}

// A block that was read: a ring waits, or with a chain the ring that waits is divided.
#[tactic(auto, unfolding(job::specs::Step::taken))]
fn take(
    s: State,
    reading: &Reading,
    ring: &mut [i32],
    nodes: &mut [f64],
    rims: &mut [u8],
    cells: &mut [NodeNumber],
) -> Stepped
    requires { CanStep s ring.old × (cells.old ≡ no_cells) × (s.block < 65536) × (points reading.now.block ≤ 60)
        × (length reading.now.points ≡ 120) }
    ensures { Steps (taken s ring.old nodes.old rims.old reading.now.points reading.now.block) result
        ring.new nodes.new rims.new cells.new }
{
    match reading.block {
        Block::Ring { count, size } => wait(s, count, size, &reading.points, ring),
        Block::Chain { count } => job::divide_ring(
            s,
            ring,
            &reading.points,
            count,
            nodes,
            rims,
            cells,
        ),
    }
}

// One step: the bytes of the next block, or what is left of the input, or none where it has ended. The cell list is left with
// the cells of the ring that was divided, or empty. That the bytes are bytes is for the caller's proof.
#[tactic(auto, unfolding(job::specs::Step::step_of, job::specs::Step::answered))]
pub fn step(
    s: State,
    bytes: &[u8],
    ring: &mut [i32],
    nodes: &mut [f64],
    rims: &mut [u8],
    cells: &mut [NodeNumber],
) -> Stepped
    requires { CanStep s ring.old × (length cells.old ≡ 496) }
    ensures { Steps (step_of s ring.old nodes.old rims.old bytes.now) result ring.new
        nodes.new rims.new cells.new × Bytes bytes.now }
{
    cells.fill(0);
    if state::at_end(s.block, bytes) {
        return end(s, Told::Nothing);
    }
    match blocks::read_block(bytes, s.block) {
        Ok(reading) => take(s, &reading, ring, nodes, rims, cells),
        Err(refused) => end(s, Told::Block(refused)),
    }
}
