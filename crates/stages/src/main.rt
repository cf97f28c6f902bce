// Stages: a program that prints what each module on the way of a ring gives, for the ring and chain blocks of a job file on
// standard input, up to the first that is refused: kept chain points and snap points, the cleaned ring, whether it is simple,
// its marks, area and worst corner, and the pieces of its split. The Rust beside us prints the same lines (`oracle stages`), so
// that each module is compared by itself. A ring stops at its pieces here; cells are the divider's.

#![tactic(auto)]

mod text;

ghost use Rattle.std.specs.Prelude.{◌/◌, ◌≤◌, ◌<◌, length, IfOk};
ghost use Rattle.vector.specs.Rings.{most_points, OnSheetRing};

use blocks::Refused;
use chain::Simplified;
use limits::Limits;
use marks::MarkedRing;
use parts::PartList;
use std::io::{Read, Write};
use vector::Ring;

// What an accepted block gives: the points of its ring or chain, and the sheet size, 0 of a chain.
#[derive(Clone, Copy)]
struct Came {
    ring: Ring,
    size: u32,
}

// The points of a block as the divider takes them; none where one is beyond the limits of a ring, which is not compared.
fn ring_of(points: &[i32]) -> Ring
    requires { length points.now / 2 ≤ most_points }
    ensures { OnSheetRing result }
{
    if lent_points::any_outside(points) {
        return lent_points::points(points, 0);
    }
    lent_points::points(points, points.len() / 2)
}

// Reads block `number`.
#[tactic(auto, using(blocks::proofs::Counts::few_points))]
fn read<R: Read>(input: &mut R, number: u32) -> Result<Came, Refused>
    ensures { IfOk result (λ came. OnSheetRing came.ring) }
{
    let mut bytes = [0u8; 512];
    let n = stream::read_full(input, &mut bytes);
    let reading = blocks::read_block(&bytes[..n], number)?;
    Ok(Came {
        ring: ring_of(&reading.points[..reading.block.count() * 2]),
        size: reading.block.size(),
    })
}

fn print_chain<W: Write>(output: &mut W, s: &Simplified, n: usize)
    requires { s.now.count ≤ 59 }
{
    let kept = if n == 0 { 0 } else { s.count + 1 };
    for p in &s.points[..kept] {
        text::point(output, "keep ", *p);
    }
    for p in &s.snaps[..s.count] {
        text::bits(output, "snap ", *p);
    }
}

fn print_marks<W: Write>(output: &mut W, ring: &MarkedRing)
    requires { OnSheetRing ring.now.ring }
{
    for (i, mark) in ring.edges[..ring.ring.count].iter().enumerate() {
        text::mark(output, i, *mark);
    }
}

fn print_piece<W: Write>(output: &mut W, piece: &MarkedRing)
    requires { OnSheetRing piece.now.ring }
{
    text::number(output, "piece ", piece.ring.count as u64);
    text::end(output);
    for (p, mark) in piece.ring.as_slice().iter().zip(&piece.edges) {
        text::corner(output, *p, *mark);
    }
}

fn print_pieces<W: Write>(output: &mut W, ring: &MarkedRing, pieces: &PartList)
    requires { OnSheetRing ring.now.ring }
{
    // Kept: this goes over the numbers of pieces, whose points and marks are laid out by number, and over no list.
    for i in 0..pieces.count {
        let piece = MarkedRing {
            ring: parts::piece_points(&ring.ring.points, pieces, i),
            edges: parts::piece_marks(&ring.edges, pieces, i),
        };
        print_piece(output, &piece);
    }
}

fn print_split<W: Write>(output: &mut W, ring: &MarkedRing)
    requires { OnSheetRing ring.now.ring × (3 ≤ ring.now.ring.count) }
{
    let s = split::split_bad_vertices(Limits::on_delivery(), &ring.ring);
    text::number(output, "cuts ", s.cuts as u64);
    text::number(output, " turned ", s.turned);
    text::end(output);
    print_pieces(output, ring, &s.pieces);
}

fn print_marked<W: Write>(output: &mut W, ring: Ring, simple: bool, s: &Simplified)
    requires { OnSheetRing ring × (3 ≤ ring.count) × (s.now.count ≤ 59) }
{
    let marked = MarkedRing {
        ring,
        edges: marks::mark_edges(ring.as_slice(), s),
    };
    print_marks(output, &marked);
    let area = vector::polygon_area(ring.as_slice());
    text::area(output, area);
    let w = corner::worst(ring.as_slice());
    text::worst(output, w, w.is_bad(Limits::on_delivery()));
    if simple && 0 < area {
        print_split(output, &marked);
    }
}

fn print_ring<W: Write>(output: &mut W, ring: &Ring, size: u32, run: &Ring, number: u32)
    requires { OnSheetRing ring.now × OnSheetRing run.now }
{
    text::number(output, "ring ", u64::from(number));
    text::end(output);
    let s = chain::simplify_chain(run.as_slice());
    print_chain(output, &s, run.count);
    let cleaned = clean::clean_polygon(ring, size).ring;
    text::points(output, cleaned.as_slice());
    let simple = simple::polygon_simple(cleaned.as_slice());
    text::number(output, "simple ", u64::from(simple));
    text::end(output);
    if 3 <= cleaned.count {
        print_marked(output, cleaned, simple, &s);
    } else {
        text::area(output, vector::polygon_area(cleaned.as_slice()));
    }
}

// One ring with its chain.
fn pair<R: Read, W: Write>(input: &mut R, output: &mut W, number: u32) -> Result<(), Refused>
    requires { number < 32768 }
{
    let head = read(input, number * 2)?;
    let tail = read(input, number * 2 + 1)?;
    print_ring(output, &head.ring, head.size, &tail.ring, number);
    Ok(())
}

fn main(rt: HostRuntime) {
    let mut input = rt.stdin();
    let mut output = rt.stdout();
    // Kept: this goes over the numbers of rings, as many as two bytes tell apart, and over no list.
    for number in 0u32..32768 {
        if pair(&mut input, &mut output, number).is_err() {
            return;
        }
    }
}
