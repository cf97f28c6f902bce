// Words: the words of a fixed list, and the numbers, bytes and doubles that they give; what a destination holds before a call;
// and the run over the lists of a program. It stands below the programs that run such lists, replay and desk. docs/REPLAY.md has
// the form of the lists.

#![tactic(auto)]

ghost use Rattle.std.specs.Prelude.{◌≡◌, ◌++◌, ◌≤◌, eqb, length, min, take, drop};

mod records;

pub use records::{Lists, Records, Tally, UnknownKind};
use std::io::Read;
use std::num::{f64_from_bits_with_nan, f64_to_bits_with_nan};

// The next word of the file; zero past its end.
pub fn word<R: Read>(input: &mut R) -> u32 {
    let mut b = [0u8; 4];
    stream::read_full(input, &mut b);
    u32::from_le_bytes(b)
}

// Whether a value is a word that was read.
fn equals(word: u32, x: u64) -> bool
    ensures { result ≡ eqb x word }
{
    x == u64::from(word)
}

// Whether a value is the next word of the file. No clause: what is read from a file has no name to cite.
pub fn is_word<R: Read>(input: &mut R, x: u64) -> bool {
    equals(word(input), x)
}

// A count, of which no list has more.
pub fn count<R: Read>(input: &mut R) -> usize
    ensures { result ≤ 65536 }
{
    word(input).min(65536) as usize
}

// A count of a list that has no more places than these.
pub fn count_to<R: Read>(input: &mut R, most: usize) -> usize
    ensures { result ≤ most }
{
    count(input).min(most)
}

pub fn long<R: Read>(input: &mut R) -> u64 {
    let mut b = [0u8; 8];
    stream::read_full(input, &mut b);
    u64::from_le_bytes(b)
}

// Whether two doubles have the same bits; all NaN count as one.
pub fn same_bits(x: f64, y: f64) -> bool {
    f64_to_bits_with_nan(x) == f64_to_bits_with_nan(y)
}

// What a list of the file holds: each of its elements is the next word, or the next two. No clause, as for `is_word`.
pub trait Field: Copy {
    fn read<R: Read>(input: &mut R) -> Self;
}

impl Field for i32 {
    fn read<R: Read>(input: &mut R) -> i32 {
        word(input).cast_signed()
    }
}

impl Field for u8 {
    fn read<R: Read>(input: &mut R) -> u8 {
        (word(input) % 256) as u8
    }
}

impl Field for u32 {
    fn read<R: Read>(input: &mut R) -> u32 {
        word(input)
    }
}

// The double with these bits; any NaN's bits give a NaN.
impl Field for f64 {
    fn read<R: Read>(input: &mut R) -> f64 {
        f64_from_bits_with_nan(long(input))
    }
}

// Reads n elements that no list has a place for.
fn pass_over<R: Read, T: Field>(input: &mut R, n: usize) {
    for _ in 0..n {
        T::read(input);
    }
}

// The next n elements, as many as the list has places for; all of them are read. What does not fit the list is left out, and
// shows as a difference. The clause says what is not touched: what is read from a file has no name to cite.
pub fn read_list<R: Read, T: Field>(input: &mut R, list: &mut [T], n: usize)
    ensures { drop n list.new ≡ drop n list.old }
{
    let fit = n.min(list.len());
    for place in &mut list[..fit] {
        *place = T::read(input);
    }
    pass_over::<R, T>(input, n - fit);
}

// The first elements of a list over those of another, as many as both have.
// Kept: std's `copy_from_slice` is for two lists of one length.
pub fn copy<T: Copy>(from: &[T], to: &mut [T])
    ensures { to.new ≡ take (min (length from.now) (length to.old)) from.now ++ drop (min (length from.now) (length to.old)) to.old }
{
    let n = from.len().min(to.len());
    to[..n].copy_from_slice(&from[..n]);
}

// Byte i of a destination before a call.
pub fn found(i: usize) -> u8 {
    ((i % 256 * 37 + 91) % 256) as u8
}

pub fn fill(out: &mut [u8]) {
    for (i, byte) in out.iter_mut().enumerate() {
        *byte = found(i);
    }
}

// The next n bytes, four to a word.
pub fn read_packed<R: Read>(input: &mut R, bytes: &mut [u8], n: usize) {
    let words = n.div_ceil(4);
    for four in bytes.chunks_mut(4).take(words) {
        copy(&word(input).to_le_bytes(), four);
    }
    pass_over::<R, u32>(input, words.saturating_sub(bytes.len().div_ceil(4)));
}

// What byte i of a destination must be after a call that wrote its first n bytes.
pub fn left(want: u8, i: usize, n: usize) -> u8 {
    if i < n { want } else { found(i) }
}

// Whether the 1,536 bytes of a destination, those beyond the lent ones too, are as the file says: how many bytes are written,
// and each.
pub fn same_bytes<R: Read>(input: &mut R, out: &[u8; 1536]) -> bool {
    let n = count(input);
    let mut want = [0u8; 1536];
    read_packed(input, &mut want, n);
    out.iter()
        .zip(&want)
        .enumerate()
        .all(|(i, (have, want))| *have == left(*want, i, n))
}
