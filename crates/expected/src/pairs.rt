// A ring and its chain saved as two blocks, compared with a list that says every byte of the destination.

use std::io::Read;

// The answer, and all 1,536 bytes that were filled, those beyond the lent ones too: the first n words come from the file, 384
// at most, all others are as found.
// Kept: the code is the number that C reads.
pub fn same_pair<R: Read>(input: &mut R, code: u64, out: &[u8; 1536]) -> bool {
    let answered = words::is_word(input, code);
    let n = words::count(input);
    let mut want = [0u8; 1536];
    // Kept: whole words are laid over what was found; `words::same_bytes` reads a count of bytes, of which the last word may be part.
    words::fill(&mut want);
    words::read_packed(input, &mut want, n.min(384) * 4);
    answered & (*out == want)
}
