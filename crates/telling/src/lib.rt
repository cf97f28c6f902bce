// Telling: the text of what a step told, written to a writer. It stands above told and stream, and below run, whose loop
// steps; it has nothing of the divider.
//
// The text that is handed over is the one that the run owes after the bytes written so far, by specs/Reached, and is what the
// writer gets.

#![tactic(auto)]

ghost use Rattle.std.specs.Prelude.{◌≡◌, ◌+◌, ◌≤◌, length, IfOk, OnOk};
ghost use Rattle.std.specs.Io.KnownBytes.{Appends};
ghost use Rattle.report.specs.Report.{most_text};
ghost use Rattle.told.specs.Text.{tells_of, told_text, CanTell};
ghost use Rattle.telling.specs.Reached.{Owed, Sends};

use nodes::NodeNumber;
use report::MOST_TEXT;
use std::io::Write;
use stream::WriteFailed;
use told::Told;

// Writes the text that is owed after `sent` bytes, and answers how many were written in all.
// Kept: a wrapper of write_counted as in sheet_lines and picture, since each asks that its own Owed holds; a generic one would
// need a trait for that and a type to carry it.
fn send<W: Write>(output: &mut W, text: &[u8], sent: &mut u64) -> Result<u64, WriteFailed>
    requires { Owed sent.old text.now × (length text.now ≤ most_text) }
    ensures all { IfOk result (λ n. n ≡ sent.new) }
    ensures counted { OnOk result (sent.new ≡ sent.old + length text.now) }
    ensures written { OnOk result (Appends (W.contents output.old) (W.contents output.new) text.now) }
{
    stream::write_counted(output, text, sent)?;
    Ok(*sent)
}

// Writes the text of what a step told, after `sent` bytes.
#[inline(never)]
fn write_told<W: Write>(
    output: &mut W,
    told: Told,
    cells: &[NodeNumber],
    sent: &mut u64,
) -> Result<u64, WriteFailed>
    requires { Owed sent.old (told_text (tells_of told) cells.now) × CanTell (tells_of told) cells.now }
    ensures all { IfOk result (λ n. n ≡ sent.new) }
    ensures sends { OnOk result (Sends sent.old (told_text (tells_of told) cells.now) sent.new) }
    ensures written { OnOk result (Appends (W.contents output.old) (W.contents output.new) (told_text (tells_of told) cells.now)) }
{
    let mut text = [0u8; MOST_TEXT];
    let n = told::print(told, cells, &mut text);
    send(output, &text[..n], sent)
}

// The same, and nothing where nothing was told. The text has its place in `write_told`, which is never merged into the loop,
// so that none of it is on the stack while a ring is divided.
#[tactic(auto, unfolding(told::specs::Text::told_text))]
pub fn tell<W: Write>(
    output: &mut W,
    told: Told,
    cells: &[NodeNumber],
    sent: &mut u64,
) -> Result<u64, WriteFailed>
    requires { Owed sent.old (told_text (tells_of told) cells.now) × CanTell (tells_of told) cells.now }
    ensures all { IfOk result (λ n. n ≡ sent.new) }
    ensures sends { OnOk result (Sends sent.old (told_text (tells_of told) cells.now) sent.new) }
    ensures written { OnOk result (Appends (W.contents output.old) (W.contents output.new) (told_text (tells_of told) cells.now)) }
{
    match told {
        Told::Nothing => Ok(*sent),
        Told::Ring { .. } | Told::Block(_) => write_told(output, told, cells, sent),
    }
}
