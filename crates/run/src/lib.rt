// Run: a job from a reader to a writer: reads a block, steps, writes the text of what the step told, until the run has
// ended. It stands above step and telling, and below the programs.
//
// `Job` holds what a run keeps from block to block, and reads and steps in one place, for `run` and for the program sheet. The
// loop's invariant is that the state, the node list with its rim marks and the count of bytes written were reached by the
// bytes read so far, which are those that the reader gave, and that the writer got their text. So a run that ends has written
// `printed` of all that the reader had, by `Gives`, in specs/Given; where a read failed, `printed` of the whole blocks before it
// and of part of a block. A run that stops before with no error is not proved. What is left to the calls of the operating system
// is said in stream.

#![tactic(auto)]

ghost use Rattle.std.specs.Prelude.{◌≡◌, true, IfOk};
ghost use Rattle.std.specs.Option.{MatchOption};
ghost use Rattle.job.specs.Step.{step_of, Steps, CanStep};
ghost use Rattle.job.specs.Run.{Bytes, printed};
ghost use Rattle.telling.specs.Reached.{Finished};
ghost use Rattle.run.specs.Onward.{Begins, Onward, Reading};
ghost use Rattle.run.specs.Given.{Gives};

use nodes::NodeNumber;
use state::State;
use std::io::{Read, Write};
use stream::WriteFailed;
use told::Told;

// A job under way: the state between two blocks, the ring that waits for its chain, the nodes with their rim marks, and the
// cells of the ring that was told last.
// Kept: arrays, since there is no heap; how far each is used is in the state.
#[derive(Drop)]
pub struct Job {
    pub state: State,
    pub ring: [i32; 120],
    pub nodes: [f64; 3072],
    pub rims: [u8; 1536],
    pub cells: [NodeNumber; 496],
}

impl Job {
    // Before the first block.
    pub fn new() -> Job
        ensures { Begins result }
    {
        Job {
            state: State::new(),
            ring: [0; 120],
            nodes: [0.0; 3072],
            rims: [0; 1536],
            cells: [0; 496],
        }
    }

    // One step: the bytes of the next block, or what is left of the input. What it tells is answered.
    pub fn step(&mut self, bytes: &[u8]) -> Told
        requires { CanStep self.old.state self.old.ring }
        ensures { Steps (step_of self.old.state self.old.ring self.old.nodes self.old.rims bytes.now)
            (record { state = self.new.state; told = result }) self.new.ring self.new.nodes self.new.rims self.new.cells
            × Bytes bytes.now }
    {
        let stepped = step::step(
            self.state,
            bytes,
            &mut self.ring,
            &mut self.nodes,
            &mut self.rims,
            &mut self.cells,
        );
        self.state = stepped.state;
        stepped.told
    }

    // Reads the next block and steps over it, and answers what the step tells; None once the run has ended.
    pub fn next<R: Read>(&mut self, input: &mut R) -> Option<Told>
        requires { CanStep self.old.state self.old.ring }
        ensures onward { MatchOption result ((self.old.state.ended ≡ true) × (self.new ≡ self.old)) (Onward self.old self.new) }
        ensures read { MatchOption result (input.new ≡ input.old) (Reading (R.remaining input.old) (R.remaining input.new) self.old self.new) }
    {
        if !state::goes_on(self.state) {
            return None;
        }
        let mut bytes = [0u8; 512];
        let got = stream::fill_block(input, &mut bytes);
        Some(self.step(&bytes[..got]))
    }
}

// The whole run, which answers how many bytes it wrote. It ends early only where writing fails.
pub fn run<R: Read, W: Write>(input: &mut R, output: &mut W) -> Result<u64, WriteFailed>
    ensures ended { IfOk result Finished }
    ensures own { IfOk result (Gives printed (R.remaining input.old) (R.remaining input.new) (W.contents output.old) (W.contents output.new)) }
{
    let mut job = Job::new();
    let mut sent: u64 = 0;
    // Kept: a `for` would need an iterator that holds the job, whose cells are read in its turns, and the input too.
    while let Some(told) = job.next(input) {
        telling::tell(output, told, &job.cells, &mut sent)?;
    }
    Ok(sent)
}
