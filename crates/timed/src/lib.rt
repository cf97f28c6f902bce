// Timed: the split of a ring, and its pieces read out, for the clock of bench/split. It stands on the crates of the split, and none
// on it. It serves a clock and no caller: it is proved to end and to run without a fault, and bench/split holds what it returns
// to the Rust.

#![tactic(auto)]

ghost use Rattle.std.specs.Prelude.{◌≡◌, ◌*◌, ◌/◌, ◌≤◌, length};
ghost use Rattle.vector.specs.Size.{AllOnSheet};
ghost use Rattle.vector.specs.Rings.{OnSheetRing};
ghost use Rattle.call.specs.Lent.{points_in};

use limits::Limits;
use marks::{EdgeMark, MarkedRing};
use parts::PartList;
use vector::{GridPoint, Point, Ring};

// The marks of a ring's edges, from x and y of the snap points in turn; of a straight edge they are infinite.
fn edges(snaps: &[f64]) -> [EdgeMark; 60] {
    let mut out = [EdgeMark::Straight; 60];
    for (mark, snap) in out.iter_mut().zip(snaps.as_chunks::<2>().0) {
        if snap[0] <= 2048.0 {
            *mark = EdgeMark::Snap(Point {
                x: snap[0],
                y: snap[1],
            });
        }
    }
    out
}

// Whether a mark counts: a snap point whose x is not below 0.
fn counts(m: EdgeMark) -> bool {
    match m {
        EdgeMark::Straight => false,
        EdgeMark::Snap(p) => 0.0 <= p.x,
    }
}

// The sum, with the place added once for a corner whose x is not below 0, and once for a mark that counts.
fn corner(sum: u64, place: u64, p: GridPoint, m: EdgeMark) -> u64 {
    let mut sum = sum;
    if 0 <= p.x {
        sum = sum.wrapping_add(place);
    }
    if counts(m) {
        sum = sum.wrapping_add(place);
    }
    sum
}

// The corners of a piece, with so many corners before it.
fn piece(sum: u64, before: u64, piece: &MarkedRing) -> u64
    requires { OnSheetRing piece.now.ring }
{
    let mut sum = sum;
    let mut place = before;
    for (p, m) in piece.ring.as_slice().iter().zip(&piece.edges) {
        place = place.wrapping_add(1);
        sum = corner(sum, place, *p, *m);
    }
    sum
}

// The sum over the pieces in order, the corners numbered through.
fn all_pieces(sum: u64, ring: &MarkedRing, pieces: &PartList) -> u64
    requires { OnSheetRing ring.now.ring }
{
    let mut sum = sum;
    let mut before: u64 = 0;
    // Kept: as in stages, this goes over the numbers of pieces and over no list.
    for i in 0..pieces.count {
        let one = MarkedRing {
            ring: parts::piece_points(&ring.ring.points, pieces, i),
            edges: parts::piece_marks(&ring.edges, pieces, i),
        };
        sum = piece(sum, before, &one);
        before = before.wrapping_add(one.ring.count as u64);
    }
    sum
}

// Cuts times 65,536, and the sum over the corners of the pieces.
#[unsafe(no_mangle)]
pub extern "C" fn timed_split(ring: &[i32], snaps: &[f64]) -> u64
    requires least { 3 ≤ length ring.now / 2 }
    requires most { length ring.now / 2 ≤ 60 }
    requires even { length ring.now ≡ length ring.now / 2 * 2 }
    requires on_sheet { AllOnSheet (points_in ring.now (length ring.now / 2)) }
{
    let marked = MarkedRing {
        ring: lent_points::points(ring, ring.len() / 2),
        edges: edges(snaps),
    };
    let s = split::split_bad_vertices(Limits::on_delivery(), &marked.ring);
    all_pieces(s.cuts as u64 * 65536, &marked, &s.pieces)
}
