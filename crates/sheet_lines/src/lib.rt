// Sheet lines: the cell sheet of a run that has ended, written to a writer line by line. It stands above listing, which
// makes a line, and stream, and below the program sheet, which runs the job.
//
// `sheeted`, in specs/Sheeted, says what comes out for every input: the loop's invariant is that as many bytes were written as
// the lines so far have, and the line that is handed over is the next node's. The lines are written one at a time: a whole
// sheet would not fit the controller.

#![tactic(auto)]

ghost use Rattle.std.specs.Prelude.{◌≡◌, ◌+◌, length, IfOk, OnOk};
ghost use Rattle.std.specs.Io.KnownBytes.{Appends};
ghost use Rattle.listing.specs.Sheet as Sheet;
ghost use Rattle.telling.specs.Reached.{EndedWith};
ghost use Rattle.sheet_lines.specs.Sheeted.{Owed};

use std::io::Write;
use stream::WriteFailed;

// Writes the line that is owed after `sent` bytes.
// Kept: a wrapper of write_counted as in telling and picture, since each asks that its own Owed holds; a generic one would
// need a trait for that and a type to carry it.
fn send<W: Write>(output: &mut W, line: &[u8], sent: &mut u64) -> Result<(), WriteFailed>
    requires { Owed sent.old line.now }
    ensures counted { OnOk result (sent.new ≡ sent.old + length line.now) }
    ensures written { OnOk result (Appends (W.contents output.old) (W.contents output.new) line.now) }
{
    stream::write_counted(output, line, sent)
}

// Writes the lines of the first `used` nodes, and answers how many bytes they have. That a run's nodes are in range is not
// proved here but tested once.
pub fn print_sheet<W: Write>(output: &mut W, nodes: &[f64], used: usize) -> Result<u64, WriteFailed>
    requires { EndedWith used nodes.now }
    ensures counted { IfOk result (λ sent. sent ≡ length (Sheet.lines nodes.now used)) }
    ensures written { OnOk result (Appends (W.contents output.old) (W.contents output.new) (Sheet.lines nodes.now used)) }
{
    let mut sent: u64 = 0;
    if listing::nodes_out(nodes, used) {
        return Err(WriteFailed);
    }
    // Kept: this goes over the numbers of nodes, by which put_line makes the lines; over the list's pairs it would enumerate them
    // and use the number alone.
    for i in 0..used {
        let mut line = [0u8; 65];
        listing::put_line(&mut line, 0, nodes, i);
        send(output, &line, &mut sent)?;
    }
    Ok(sent)
}
