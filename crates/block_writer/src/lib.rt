// Block writer: writing a job block of 512 bytes, which blocks reads. It stands above blocks and below writer, which saves a
// ring and its chain.
//
// blocks' specs/Writing has the bytes of a block as one list. proofs/Written and Rewritten tie it to the reader: what was
// written is read as it was, and what was read is written as it was.

#![tactic(auto)]

ghost use Rattle.std.specs.Prelude.{◌≡◌, ◌++◌, ◌/◌, ◌≤◌, length, get_or, drop, pos};
ghost use Rattle.blocks.specs.Writing as Writing;

use blocks::Kind;

// Coordinate k, zero where there is none.
#[tactic(auto, using(blocks::proofs::TwosComplement::bits_read))]
fn coordinate(points: &[i32], k: usize) -> u32
    ensures { result ≡ Writing.bits (get_or points.now k (pos 0)) }
{
    points.get(k).copied().unwrap_or(0).cast_unsigned()
}

// Kind, count and block number.
#[tactic(auto, unfolding(blocks::specs::Writing::head_word))]
fn head(count: usize, number: u32) -> u32
    requires { (count ≤ 60) × (number ≤ 65535) }
    ensures { result ≡ Writing.head_word count number }
{
    // Kept: for `from_le_bytes` the number would first be taken apart into four bytes, of which two are zero.
    Kind::of(number) as u32 + 256 * count as u32 + 65536 * number
}

// Word w of a block, its check aside.
#[tactic(auto, unfolding(blocks::specs::Writing::field))]
fn field(points: &[i32], size: u32, number: u32, w: usize) -> u32
    requires { (length points.now / 2 ≤ 60) × (number ≤ 65535) }
    ensures { result ≡ Writing.field points.now size number w }
{
    match w {
        0 => head(points.len() / 2, number),
        1..121 => coordinate(points, w - 1),
        121 => size,
        _ => 0,
    }
}

// Writes the four bytes of n at the front.
#[tactic(auto, unfolding(blocks::specs::Writing::word_bytes))]
fn put_word(out: &mut [u8], n: u32)
    requires { 4 ≤ length out.old }
    ensures { out.new ≡ Writing.word_bytes n ++ drop 4 out.old }
{
    out[..4].copy_from_slice(&n.to_le_bytes());
}

// Writes bytes 0 to 507 of a block at the front.
fn write_body(out: &mut [u8], points: &[i32], size: u32, number: u32)
    requires { (512 ≤ length out.old) × (length points.now / 2 ≤ 60) × (number ≤ 65535) }
    ensures { out.new ≡ Writing.body_bytes points.now size number ++ drop 508 out.old }
{
    // Kept: w is counted. Of a loop over `out[..508].as_chunks_mut::<4>()` (tried) all closes but the answer: the library says nothing
    // of what `out` ends as.
    for w in 0..127 {
        let at = w * 4;
        put_word(&mut out[at..], field(points, size, number, w));
    }
}

// Writes the block of the points at the front; the bytes after its 512 stay.
pub fn write_block(out: &mut [u8], points: &[i32], size: u32, number: u32)
    requires { (512 ≤ length out.old) × (length points.now / 2 ≤ 60) × (number ≤ 65535) }
    ensures { out.new ≡ Writing.block_bytes points.now size number ++ drop 512 out.old }
{
    write_body(out, points, size, number);
    let sum = blocks::check(out);
    put_word(&mut out[508..], sum);
}
