// Sheet: the program that prints the cell sheet of a job. Job blocks on standard input, as `divide` reads them; on standard
// output a line for each node that `divide` would list, in the order of their numbers.
//
// The blocks are stepped over by `run::Job`, and what the steps tell is dropped; then the lines are written by sheet_lines: they
// are `sheeted` of all that the reader had, by `Gives` of run. What is left to the operating system's calls is said in stream.

#![tactic(auto)]

ghost use Rattle.std.specs.Prelude.{IfOk};
ghost use Rattle.run.specs.Given.{Gives};
ghost use Rattle.sheet_lines.specs.Sheeted.{sheeted, Finished};

use run::Job;
use std::io::{Read, Write};
use stream::WriteFailed;

// Runs the job and prints the sheet of the nodes that it leaves.
fn list_job<R: Read, W: Write>(input: &mut R, output: &mut W) -> Result<u64, WriteFailed>
    ensures ended { IfOk result Finished }
    ensures own { IfOk result (Gives sheeted (R.remaining input.old) (R.remaining input.new) (W.contents output.old) (W.contents output.new)) }
{
    let mut job = Job::new();
    // Kept: `next` takes the input, so the job is no iterator that could be counted to its end.
    while let Some(_) = job.next(input) {}
    sheet_lines::print_sheet(output, &job.nodes, job.state.used)
}

fn main(rt: HostRuntime) {
    if list_job(&mut rt.stdin(), &mut rt.stdout()).is_err() {
        let _ = stream::write_all(&mut rt.stderr(), b"sheet: standard output failed\n");
    }
}
