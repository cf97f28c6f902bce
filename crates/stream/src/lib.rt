// Stream: a block read from a reader, and a text written to a writer, with a count of every byte that was taken. It stands below
// run and the other programs that read blocks or print; what they write to their standard output goes through here.
//
// What the operating system reads or writes has no contract; a reader and a writer over memory have one, and the clauses name
// their bytes, for every reader and writer whose bytes are known. What is read into a list is what the reader had next, in its
// order, and the reader has lost no more than that; a block is the next 512 bytes or what is left, by specs/Reads. That the
// input has ended is answered only where a `read` gave nothing, and not where one failed. `write_some` alone counts: it calls
// `write` once, and adds what was taken to the count that it is lent; so whoever hands a text over twice has counted it twice,
// and cannot show that the count is the definition's.
//
// These lines are the same for the operating system's reader and writer. Left to them is that a read or a write of which it is
// said that it failed did fail: the trait says what a failed one keeps, and not that there was one.

#![tactic(auto)]

ghost use Rattle.std.specs.Prelude.{◌≡◌, ◌+◌, ◌^◌, ◌≤◌, ◌<◌, max, length, take, IfOk, IfErr, OnOk, OnErr};
ghost use Rattle.std.specs.Io.KnownBytes.{Appends, Consumes, IsAtEnd};
ghost use Rattle.std.specs.Fmt.{decimal};
ghost use Rattle.stream.specs.Reads.{Reads};
ghost use Rattle.stream.specs.Shown.{sixteen};

use std::io;
use std::io::{Cursor, Error, Read, Write};

// A read failed; so many bytes had come.
#[derive(Clone, Copy, PartialEq, Eq)]
pub struct ReadFailed {
    pub done: usize,
}

// A write failed, or took nothing.
#[derive(Clone, Copy, PartialEq, Eq)]
pub struct WriteFailed;

// Reads until the list is full or the input ends, and answers how many bytes there are. A read that failed is no end: of a
// reader that may be any, `IsAtEnd` is known where a read gave nothing.
pub fn fill<R: Read>(input: &mut R, bytes: &mut [u8]) -> Result<usize, ReadFailed>
    ensures whole { IfOk result (λ n. n ≤ length bytes.new) }
    ensures part { IfErr result (λ failed. failed.done < length bytes.new) }
    ensures ended { IfOk result (λ n. n < length bytes.new → IsAtEnd (R.remaining input.new)) }
    ensures read { IfOk result (λ n. Consumes (R.remaining input.old) (R.remaining input.new) (take n bytes.new)) }
    ensures before { IfErr result (λ failed. Consumes (R.remaining input.old) (R.remaining input.new) (take failed.done bytes.new)) }
{
    let mut done: usize = 0;
    // Kept: `read_exact` does not say how much was read of a list that is not filled.
    while done < bytes.len() {
        let Ok(more) = input.read(&mut bytes[done..]) else {
            return Err(ReadFailed { done });
        };
        if more == 0 {
            break;
        }
        done += more;
    }
    Ok(done)
}

// Reads a block, and answers how many bytes there are. A failed read leaves part of a block, so one byte at least.
pub fn fill_block<R: Read>(input: &mut R, bytes: &mut [u8]) -> usize
    requires { length bytes.old ≡ 512 }
    ensures whole { result ≤ 512 }
    ensures ended { result ≡ 0 → IsAtEnd (R.remaining input.new) }
    ensures read { Reads (R.remaining input.old) (R.remaining input.new) (take result bytes.new) }
{
    fill(input, bytes).unwrap_or_else(|failed| part_of(failed.done))
}

// How much of a block there is after a failed read.
fn part_of(done: usize) -> usize
    requires { done < 512 }
    ensures { (0 < result) × (result < 512) × (result ≡ max done 1) }
{
    done.max(1)
}

// Reads until the list is full, the input ends or a read fails, and answers how many bytes there are.
pub fn read_full<R: Read>(input: &mut R, bytes: &mut [u8]) -> usize
    ensures whole { result ≤ length bytes.new }
    ensures read { Consumes (R.remaining input.old) (R.remaining input.new) (take result bytes.new) }
{
    fill(input, bytes).unwrap_or_else(|failed| failed.done)
}

// Hands bytes over once, and counts those that were taken.
fn write_some<W: Write>(output: &mut W, bytes: &[u8], sent: &mut u64) -> Result<usize, WriteFailed>
    requires { sent.old + length bytes.now < 2 ^ 64 }
    ensures within { IfOk result (λ more. (0 < more) × (more ≤ length bytes.now)) }
    ensures counted { IfOk result (λ more. sent.new ≡ sent.old + more) }
    ensures written { IfOk result (λ more. Appends (W.contents output.old) (W.contents output.new) (take more bytes.now)) }
    ensures rest { OnErr result (sent.new ≡ sent.old) }
{
    match output.write(bytes) {
        Ok(more) if 0 < more => {
            *sent += more as u64;
            Ok(more)
        }
        _ => Err(WriteFailed),
    }
}

// Writes all of a text, or stops at the first write that fails or takes nothing.
// Kept: here and in what stands on it, a writer and the count of bytes are lent side by side. In a struct of both each contract would
// say of the writer inside that it stays the same one, and `Owed` asks the count before a text and after.
#[tactic(auto, using(crate::proofs::Writing::more_written))]
pub fn write_counted<W: Write>(
    output: &mut W,
    text: &[u8],
    sent: &mut u64,
) -> Result<(), WriteFailed>
    requires { sent.old + length text.now < 2 ^ 64 }
    ensures counted { OnOk result (sent.new ≡ sent.old + length text.now) }
    ensures written { OnOk result (Appends (W.contents output.old) (W.contents output.new) text.now) }
{
    let mut done: usize = 0;
    // Kept: `write_all` does not say how much was written before it failed.
    while done < text.len() {
        done += write_some(output, &text[done..], sent)?;
    }
    Ok(())
}

// The same of words that no definition counts, as those on standard error.
pub fn write_all<W: Write>(output: &mut W, text: &[u8]) -> Result<(), WriteFailed>
    ensures { OnOk result (Appends (W.contents output.old) (W.contents output.new) text.now) }
{
    let mut sent: u64 = 0;
    write_counted(output, text, &mut sent)
}

// Writes a number in decimal digits.
pub fn print_decimal<W: Write>(output: &mut W, n: u64) -> io::Result<()>
    ensures { OnOk result (Appends (W.contents output.old) (W.contents output.new) (decimal n)) }
{
    write!(output, "{n}")
}

// Writes a number in sixteen hexadecimal digits.
pub fn print_hex<W: Write>(output: &mut W, n: u64) -> io::Result<()>
    ensures { OnOk result (Appends (W.contents output.old) (W.contents output.new) (sixteen n)) }
{
    write!(output, "{n:016x}")
}

// How much of an error's text stands before its number in brackets.
fn words_of(text: &[u8]) -> usize
    ensures { result ≤ length text.now }
{
    text.iter()
        .skip(1)
        .position(|b| *b == b'(')
        .unwrap_or(text.len())
}

// Says on a line what failed, and why.
pub fn fail<W: Write>(output: &mut W, what: &str, error: Error) {
    let mut text = Cursor::new([0u8; 128]);
    let _ = write!(text, "{error}");
    let n = text.position() as usize;
    let bytes = text.into_inner();
    let _ = write_all(output, what.as_bytes());
    let _ = write_all(output, b": ");
    let said = &bytes[..n.min(bytes.len())];
    let _ = write_all(output, &said[..words_of(said)]);
    let _ = write_all(output, b"\n");
}
