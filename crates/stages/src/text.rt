// The lines that the program prints: words, whole numbers, and doubles as the hexadecimal digits of their bits. Where printing
// fails the rest is lost, and whoever compares sees it.

use corner::Corner;
use marks::EdgeMark;
use std::io::Write;
use vector::{GridPoint, Point};

pub fn end<W: Write>(output: &mut W) {
    let _ = write!(output, "\n");
}

pub fn number<W: Write>(output: &mut W, word: &str, n: u64) {
    let _ = write!(output, "{word}{n}");
}

pub fn point<W: Write>(output: &mut W, word: &str, p: GridPoint) {
    let _ = write!(output, "{word}{} {}\n", p.x, p.y);
}

pub fn points<W: Write>(output: &mut W, ring: &[GridPoint]) {
    for p in ring {
        point(output, "corner ", *p);
    }
}

// The bits of a double. No module gives a NaN here; one would print as 0.
fn bits_of(x: f64) -> u64 {
    if x.is_nan() { 0 } else { x.to_bits() }
}

pub fn bits<W: Write>(output: &mut W, word: &str, p: Point) {
    let _ = write!(
        output,
        "{word}{:016x} {:016x}\n",
        bits_of(p.x),
        bits_of(p.y)
    );
}

pub fn mark<W: Write>(output: &mut W, i: usize, m: EdgeMark) {
    if let EdgeMark::Snap(p) = m {
        number(output, "mark ", i as u64);
        bits(output, " ", p);
    }
}

pub fn corner<W: Write>(output: &mut W, p: GridPoint, m: EdgeMark) {
    let _ = write!(output, "at {} {}", p.x, p.y);
    match m {
        EdgeMark::Straight => end(output),
        EdgeMark::Snap(q) => bits(output, " ", q),
    }
}

pub fn area<W: Write>(output: &mut W, z: i64) {
    let _ = write!(output, "area {z}\n");
}

pub fn worst<W: Write>(output: &mut W, w: Corner, bad: bool) {
    let at = w.at;
    let measure = bits_of(w.measure);
    let _ = write!(output, "worst {at} {measure:016x} {}\n", u64::from(bad));
}
