// Writer: a ring and its chain saved as the two blocks that the divider takes. It stands beside the way of a ring, at its
// start: what it writes, `blocks` reads to the same ring and chain.
//
// It tests what it is given as the divider does, 1 and 2, and then its destination, 12. Nothing is asked of a caller. A
// refusal leaves the destination as found; else its first 1,024 bytes are the pair, and those after it stay.

#![tactic(auto)]

ghost use Rattle.std.specs.Prelude.{◌≡◌, length};
ghost use Rattle.writer.specs.Write as Write;

use blocks::Kind;

// What the writer tests, by its number: the counts, the coordinates and the sheet size, the destination.
// Kept: a type of its own beside the divider's refusals, so that no match has cases that a pair never has.
#[derive(Clone, Copy, Debug, PartialEq, Eq)]
pub enum Refusal {
    Counts = 1,
    Units = 2,
    Destination = 12,
}

impl From<Refusal> for u64 {
    ghost from_gives = { λ r n. n ≡ Write.number_of r };

    fn from(r: Refusal) -> u64 {
        r as u64
    }
}

// 12: too few bytes, or a number that no ring block of a pair has.
#[tactic(auto, unfolding(crate::specs::Write::destination_out))]
fn destination_out(places: usize, number: u32) -> bool
    ensures { result ≡ Write.destination_out places number }
{
    places < 1024 || Kind::of(number) != Kind::Ring || number > 65534
}

// The first of 1, 2 and 12 that refuses.
#[tactic(auto, unfolding(crate::specs::Write::tested))]
fn test(ring: &[i32], chain: &[i32], size: u32, number: u32, places: usize) -> Result<(), Refusal>
    ensures { result ≡ Write.tested ring.now chain.now size number places }
{
    if lent_points::counts_out(ring.len(), chain.len()) {
        return Err(Refusal::Counts);
    }
    if lent_points::units_out(ring, chain, size) {
        return Err(Refusal::Units);
    }
    if destination_out(places, number) {
        return Err(Refusal::Destination);
    }
    Ok(())
}

// Saves the ring and the chain as blocks `number` and `number + 1`, if nothing refuses them.
pub fn save(
    ring: &[i32],
    chain: &[i32],
    size: u32,
    number: u32,
    out: &mut [u8],
) -> Result<(), Refusal>
    ensures answer { result ≡ Write.tested ring.now chain.now size number (length out.old) }
    ensures bytes { out.new ≡ Write.written ring.now chain.now size number out.old }
{
    test(ring, chain, size, number, out.len())?;
    block_writer::write_block(out, ring, size, number);
    block_writer::write_block(&mut out[512..], chain, 0, number + 1);
    Ok(())
}

// The same, and answers 0; or answers the refusal.
// Kept: C reads the number.
#[tactic(auto, using(crate::proofs::Passed::none_refuses, crate::proofs::Passed::one_refuses))]
pub fn blocks_write(ring: &[i32], chain: &[i32], size: u32, number: u32, out: &mut [u8]) -> u64
    ensures { (result ≡ Write.refusal ring.now chain.now size number (length out.old))
        × (out.new ≡ Write.written ring.now chain.now size number out.old) }
{
    match save(ring, chain, size, number, out) {
        Ok(()) => 0,
        Err(refusal) => refusal.into(),
    }
}
