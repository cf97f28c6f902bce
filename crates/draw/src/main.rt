// Draw: the program. A drawing as plain text on standard input, the job blocks that `divide` takes on standard output.
//
// The text is read byte by byte and stepped over by drawing, whose `drawn` says what comes out for every text. A pair of blocks
// is written as soon as its ring is complete. Where a line is bad the run ends, and `line N: what is expected` stands on
// standard error, in the words that `said`, in specs/Said, has for its number. The loop's invariant is that the drawing is that
// of the bytes read so far, which are those that the reader gave, and that the writer got their blocks. So a run that ends has
// written `drawn` of all that the reader had, or of its bytes up to the one that something is wrong with, by `Gives`, in
// specs/Given. What is left to the calls of the operating system is said in stream.

#![tactic(auto)]

ghost use Rattle.std.specs.Prelude.{◌≡◌, ◌+◌, [], length, None, IfOk, IfErr, OnOk};
ghost use Rattle.std.specs.Io.KnownBytes.{Appends, Consumes};
ghost use Rattle.drawing.specs.Drawing.{number_of};
ghost use Rattle.drawing.specs.Parsing as Parsing;
ghost use Rattle.draw.specs.declared.Failure.TheVariants.{Reading, Writing};
ghost use Rattle.draw.specs.Reached.{Reached, LineEnded, Sendable, Ends, step_of, closing, ending, line_of, written};
ghost use Rattle.draw.specs.Given.{Gave, Gives, Broken};
ghost use Rattle.draw.specs.Said.{came_to, said, number_of_failure};

use drawing::{Drawing, State, Wrong};
use std::io;
use std::io::{Read, Write};
use stream::WriteFailed;

// Why a run can be cut short: the input cannot be read, or the output written.
#[derive(Clone, Copy, Debug, PartialEq, Eq)]
enum Failure {
    Reading,
    Writing,
}

impl From<WriteFailed> for Failure {
    ghost use Rattle.draw.specs.declared.Failure.TheVariants.{Writing};

    ghost from_gives = { λ failed failure. failure ≡ Writing };

    fn from(_: WriteFailed) -> Failure {
        Self::Writing
    }
}

// What is wrong, and in which line.
#[derive(Clone, Copy, Debug, PartialEq, Eq)]
struct Bad {
    wrong: Wrong,
    line: u32,
}

// How a whole run ended: what is wrong, if something is, and how many bytes were written.
#[derive(Clone, Copy)]
struct Ended {
    bad: Option<Bad>,
    sent: u64,
}

// What the writer refuses is said of the line that its ring begins at.
fn line_of(s: State, wrong: Wrong) -> u32
    ensures { result ≡ line_of s wrong }
{
    match wrong {
        Wrong::Refused(_) => s.draft.began,
        Wrong::Other(number) if number < 21 => s.draft.began,
        _ => s.line,
    }
}

// The end of a run in this state.
fn end_of(s: State, sent: u64) -> Ended
    ensures { result ≡ ending s sent }
{
    let bad = s.draft.wrong.map(|wrong| Bad {
        wrong,
        line: line_of(s, wrong),
    });
    Ended { bad, sent }
}

// What a read of one byte came to: the byte, or none where the input has ended. One that failed is no end, so that part of a
// drawing is not taken for the whole.
fn came_to(got: io::Result<usize>, byte: &[u8]) -> Result<Option<u8>, Failure>
    ensures { result ≡ came_to got byte.now }
{
    match got {
        Err(_) => Err(Failure::Reading),
        Ok(0) => Ok(None),
        Ok(_) => Ok(byte.first().copied()),
    }
}

// Reads the next byte.
fn read_byte<R: Read>(input: &mut R) -> Result<Option<u8>, Failure>
    ensures gave { IfOk result (Gave (R.remaining input.old) (R.remaining input.new)) }
    ensures kept { IfErr result (λ failure. (failure ≡ Reading) × Consumes (R.remaining input.old) (R.remaining input.new) []) }
{
    let mut byte = [0u8; 1];
    let got = input.read(&mut byte);
    came_to(got, &byte)
}

// Writes the pair that the last step completed, if it did, after `sent` bytes.
fn send<W: Write>(output: &mut W, d: &Drawing, sent: &mut u64) -> Result<(), Failure>
    requires { Sendable d.now sent.old }
    ensures count { OnOk result (sent.new ≡ sent.old + length (written d.now)) }
    ensures bytes { OnOk result (Appends (W.contents output.old) (W.contents output.new) (written d.now)) }
    ensures failed { IfErr result (λ failure. failure ≡ Writing) }
{
    if d.state.draft.wrote {
        stream::write_counted(output, &d.lists.out, sent)?;
    }
    Ok(())
}

// Steps over one byte, and writes the pair that it completes.
fn take<W: Write>(output: &mut W, d: &mut Drawing, b: u8, sent: &mut u64) -> Result<(), Failure>
    requires { Reached d.old sent.old × (d.old.state.draft.wrong ≡ None) }
    ensures steps { OnOk result (Parsing.Moves (Parsing.fed b) d.old d.new) }
    ensures count { OnOk result (sent.new ≡ sent.old + length (written d.new)) }
    ensures bytes { OnOk result (Appends (W.contents output.old) (W.contents output.new) (written d.new)) }
    ensures failed { IfErr result (λ failure. failure ≡ Writing) }
{
    d.feed(b);
    send(output, d, sent)
}

// The last line has ended, and with it the text.
fn close<W: Write>(output: &mut W, d: &mut Drawing, sent: &mut u64) -> Result<Ended, Failure>
    requires { LineEnded d.old sent.old × (d.old.state.draft.wrong ≡ None) }
    ensures ends { IfOk result (Ends (step_of (Parsing.ends (Parsing.parser_of d.old))) sent.old (W.contents output.old) (W.contents output.new)) }
    ensures failed { IfErr result (λ failure. failure ≡ Writing) }
{
    d.finish();
    send(output, d, sent)?;
    Ok(end_of(d.state, *sent))
}

// All is read: the last line ends, and then the text.
fn finish<W: Write>(output: &mut W, d: &mut Drawing, sent: &mut u64) -> Result<Ended, Failure>
    requires { Reached d.old sent.old × (d.old.state.draft.wrong ≡ None) }
    ensures ends { IfOk result (Ends (closing (Parsing.parser_of d.old)) sent.old (W.contents output.old) (W.contents output.new)) }
    ensures failed { IfErr result (λ failure. failure ≡ Writing) }
{
    take(output, d, b'\n', sent)?;
    match d.state.draft.wrong {
        None => close(output, d, sent),
        Some(_) => Ok(end_of(d.state, *sent)),
    }
}

// The whole run.
#[tactic(auto, using(crate::proofs::Reaching::falls, crate::proofs::Reaching::goes_on))]
fn draw<R: Read, W: Write>(input: &mut R, output: &mut W) -> Result<Ended, Failure>
    ensures gives { IfOk result (Gives (R.remaining input.old) (R.remaining input.new) (W.contents output.old) (W.contents output.new)) }
    ensures broken { IfErr result (λ failure. failure ≡ Reading
        → Broken (R.remaining input.old) (R.remaining input.new) (W.contents output.old) (W.contents output.new)) }
{
    let mut d = Drawing::new();
    let mut sent: u64 = 0;
    // Kept: the state says when the run ends, which is the loop's own test. Over `input.bytes()` it would be an `if` with a `return`
    // at each turn.
    while d.state.draft.wrong.is_none() {
        let Some(b) = read_byte(input)? else {
            return finish(output, &mut d, &mut sent);
        };
        take(output, &mut d, b, &mut sent)?;
    }
    Ok(end_of(d.state, sent))
}

// The words for what is wrong, by its number, since a `Wrong` may hold any. No coordinate that a line says is off the sheet, so
// that 2 has no words of its own.
#[tactic(auto, unfolding(crate::specs::Said::said, crate::specs::Said::said_more, text::specs::Text::bytes))]
fn words(wrong: Wrong) -> &'static [u8]
    ensures { result.now ≡ said (number_of wrong) }
{
    match u32::from(wrong) {
        1 => b"expected 3 to 60 points in the ring that begins here\n",
        12 => b"expected no more than 32768 rings\n",
        21 => b"expected `ring SIZE`, `chain`, or a point `x y` in mm, such as 12.5 -3\n",
        22 => b"expected a sheet size after `ring`, a whole number from 1 to 2048\n",
        23 => b"expected coordinates from -1024 to 1024 mm\n",
        24 => b"expected `ring SIZE` before the first point or `chain`\n",
        25 => b"expected no more than 60 points in a ring\n",
        26 => b"expected no more than 60 points in a chain\n",
        27 => b"expected no more than one `chain` in a ring\n",
        28 => b"expected no more than 80 characters beside a comment\n",
        29 => b"expected no more than 16777216 characters in a drawing\n",
        30 => b"draw: standard input failed\n",
        _ => b"draw: standard output failed\n",
    }
}

#[tactic(auto, unfolding(crate::specs::Said::said, crate::specs::Said::said_more, text::specs::Text::bytes))]
fn failure_words(failure: Failure) -> &'static [u8]
    ensures { result.now ≡ said (number_of_failure failure) }
{
    match failure {
        Failure::Reading => b"draw: standard input failed\n",
        Failure::Writing => b"draw: standard output failed\n",
    }
}

fn main(rt: HostRuntime) {
    let end = draw(&mut rt.stdin(), &mut rt.stdout());
    let mut output = rt.stderr();
    match end {
        Err(failure) => {
            let _ = stream::write_all(&mut output, failure_words(failure));
        }
        Ok(Ended { bad: None, .. }) => {}
        Ok(Ended { bad: Some(bad), .. }) => {
            let _ = stream::write_all(&mut output, b"line ");
            let _ = stream::print_decimal(&mut output, u64::from(bad.line));
            let _ = stream::write_all(&mut output, b": ");
            let _ = stream::write_all(&mut output, words(bad.wrong));
        }
    }
}
