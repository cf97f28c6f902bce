// Lines: what one line of a drawing says: nothing, a ring with its sheet size, a chain, a point, or what is wrong with it. It
// stands above numeral, and below the drawing that gathers the points.
//
// Words are parted by spaces, tabs and carriage returns. Everything is worked out in the line that is lent.

#![tactic(auto)]

ghost use Rattle.std.specs.Prelude.{◌≡◌, ◌≤◌, not, length, IfOk};
ghost use Rattle.std.specs.List.{take_while};
ghost use Rattle.numeral.specs.Numeral.{Scaled};
ghost use Rattle.lines.specs.Line as Says;

use numeral::Said;

// What a line says: nothing, a ring with its sheet size, that the open ring's chain begins, or a point.
#[derive(Clone, Copy, Debug, PartialEq, Eq)]
pub enum Line {
    Nothing,
    Ring { size: u32 },
    Chain,
    Point { x: i32, y: i32 },
}

// What is wrong with it, by its number: no line of these; no sheet size; a coordinate beyond 1,024 mm.
#[derive(Clone, Copy, Debug, PartialEq, Eq)]
pub enum Fault {
    Unknown = 21,
    NoSize = 22,
    Beyond = 23,
}

impl From<Fault> for u32 {
    ghost from_gives = { λ f n. n ≡ Says.number_of f };

    fn from(f: Fault) -> u32 {
        f as u32
    }
}

fn blank(b: u8) -> bool
    ensures { result ≡ Says.blank b }
{
    matches!(b, b' ' | b'\t' | b'\r')
}

// How many bytes at the front are blank.
fn blanks(bytes: &[u8]) -> usize
    ensures { result ≡ length (take_while Says.blank bytes.now) }
{
    bytes.iter().take_while(|b| blank(**b)).count()
}

// How many are not. Kept: a flag or a closure that made the two one would be longer than this line.
fn letters(bytes: &[u8]) -> usize
    ensures { result ≡ length (take_while (λ b. not (Says.blank b)) bytes.now) }
{
    bytes.iter().take_while(|b| !blank(**b)).count()
}

// The first place from `at` on that is not blank.
fn start_of(line: &[u8], at: usize) -> usize
    requires { at ≤ length line.now }
    ensures place { result ≡ Says.start line.now at }
    ensures within { result ≤ length line.now }
    ensures from { at ≤ result }
{
    at + blanks(&line[at..])
}

// The first place from `at` on that is blank.
fn end_of(line: &[u8], at: usize) -> usize
    requires { at ≤ length line.now }
    ensures place { result ≡ Says.end line.now at }
    ensures within { result ≤ length line.now }
    ensures from { at ≤ result }
{
    at + letters(&line[at..])
}

// A whole number from 1 to 2,048.
fn size_good(n: Said) -> bool
    ensures { result ≡ Says.size_good n }
{
    !n.minus && n.scale <= 1 && n.value != 0 && n.value <= 2048
}

fn hear_size(word: &[u8]) -> Result<Line, Fault>
    ensures { result ≡ Says.ring_line word.now }
{
    let n = numeral::read(word).ok_or(Fault::NoSize)?;
    if size_good(n) {
        Ok(Line::Ring {
            size: n.value as u32,
        })
    } else {
        Err(Fault::NoSize)
    }
}

fn hear_chain(more: &[u8]) -> Result<Line, Fault>
    ensures { result ≡ Says.chain_line more.now }
{
    if more.is_empty() {
        Ok(Line::Chain)
    } else {
        Err(Fault::Unknown)
    }
}

#[tactic(auto, using(crate::proofs::Sheet::abs_signed))]
fn coordinate(n: Said) -> Result<i32, Fault>
    requires { Scaled n }
    ensures said { result ≡ Says.coordinate n }
    ensures on_sheet { IfOk result Says.OnSheet }
{
    let units = numeral::units(n.value, n.scale).ok_or(Fault::Beyond)?;
    Ok(numeral::signed(n.minus, units))
}

fn hear_point(first: &[u8], second: &[u8]) -> Result<Line, Fault>
    ensures said { result ≡ Says.point_line first.now second.now }
    ensures on_sheet { IfOk result Says.HeardOnSheet }
{
    let x = numeral::read(first).ok_or(Fault::Unknown)?;
    let y = numeral::read(second).ok_or(Fault::Unknown)?;
    let x = coordinate(x)?;
    let y = coordinate(y)?;
    Ok(Line::Point { x, y })
}

// A line of one word, or of two.
#[tactic(auto, unfolding(crate::specs::Line::words, text::specs::Text::bytes))]
fn hear_words(first: &[u8], second: &[u8]) -> Result<Line, Fault>
    ensures said { result ≡ Says.words first.now second.now }
    ensures on_sheet { IfOk result Says.HeardOnSheet }
{
    if first == b"ring".as_slice() {
        return hear_size(second);
    }
    if first == b"chain".as_slice() {
        return hear_chain(second);
    }
    hear_point(first, second)
}

// What the line says.
#[tactic(auto, unfolding(crate::specs::Line::heard))]
pub fn hear(line: &[u8]) -> Result<Line, Fault>
    ensures said { result ≡ Says.heard line.now }
    ensures on_sheet { IfOk result Says.HeardOnSheet }
{
    let a = start_of(line, 0);
    if a == line.len() {
        return Ok(Line::Nothing);
    }
    let b = end_of(line, a);
    let c = start_of(line, b);
    let d = end_of(line, c);
    let e = start_of(line, d);
    if e < line.len() {
        return Err(Fault::Unknown);
    }
    hear_words(&line[a..b], &line[c..d])
}
