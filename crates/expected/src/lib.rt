// Expected: what a call, a block or a saved pair leaves, compared with a fixed list that says what the Rust leaves. It stands
// under `replay`, and reads the list's words by `words`.

#![tactic(auto)]

mod pairs;

use blocks::{Block, Kind, Reading, Refused};
pub use pairs::same_pair;
use std::io::Read;
use table::Row;
use words::Field;

fn same_row<R: Read>(input: &mut R, v: Row) -> bool {
    let mut same = words::is_word(input, v.code);
    for x in [v.corners, v.k, v.marked, v.cuts, v.pieces] {
        same &= words::is_word(input, x);
    }
    for x in [v.turned, v.area] {
        same &= x == words::long(input);
    }
    for x in [v.nodes, v.cells] {
        same &= words::is_word(input, x);
    }
    same
}

// Element i of a list after a call: the n from `at` on come from the file, all others are as they were.
fn after<R: Read, T: Field>(input: &mut R, was: T, i: usize, at: usize, n: usize) -> T {
    if at <= i && i - at < n {
        return T::read(input);
    }
    was
}

fn same_nodes<R: Read>(input: &mut R, nodes: &[f64], before: &[f64], at: usize) -> bool {
    let n = words::count(input);
    let mut same = true;
    for (i, node) in nodes.iter().enumerate() {
        let was = before.get(i).copied().unwrap_or(0.0);
        same &= words::same_bits(*node, after(input, was, i, at, n));
    }
    same
}

// The cell list was filled with 65,535 before the call.
fn same_cells<R: Read>(input: &mut R, cells: &[u32]) -> bool {
    let at = words::count(input);
    let n = words::count(input);
    let mut same = true;
    for (i, cell) in cells.iter().enumerate() {
        same &= *cell == after(input, 65535, i, at, n);
    }
    same
}

// Whether mark i after a call is as it should be: the first n come from the file, all others are as they were.
fn same_mark(mark: &u8, want: &[u8], before: &[u8], i: usize, n: usize) -> bool {
    let list = if i < n { want } else { before };
    list.get(i) == Some(mark)
}

fn same_rims<R: Read>(input: &mut R, rims: &[u8], before: &[u8]) -> bool {
    let n = words::count(input);
    let mut want = [0u8; 1536];
    words::read_packed(input, &mut want, n);
    rims.iter()
        .enumerate()
        .all(|(i, mark)| same_mark(mark, &want, before, i, n))
}

// All that a call leaves: its row and every place of its lists, of which `before` and `marks` are what it found.
pub fn same_left<R: Read>(
    input: &mut R,
    v: Row,
    nodes: &[f64],
    before: &[f64],
    used: usize,
    cells: &[u32],
    rims: &[u8],
    marks: &[u8],
) -> bool {
    let row = same_row(input, v);
    let listed = same_nodes(input, nodes, before, used.saturating_mul(2));
    let laid = same_cells(input, cells);
    row & listed & laid & same_rims(input, rims, marks)
}

fn same_points<R: Read>(input: &mut R, points: &[i32]) -> bool {
    let mut same = true;
    for point in points {
        same &= *point == i32::read(input);
    }
    same
}

fn same_reading<R: Read>(input: &mut R, r: &Reading) -> bool {
    let kind = match r.block {
        Block::Ring { .. } => Kind::Ring,
        Block::Chain { .. } => Kind::Chain,
    };
    let mut same = words::word(input) == 0;
    same &= words::word(input) == kind as u32;
    same &= words::count(input) == r.block.count();
    same &= words::word(input) == r.block.size();
    same & same_points(input, &r.points)
}

pub fn same_block<R: Read>(input: &mut R, number: u32, r: Result<Reading, Refused>) -> bool {
    match r {
        Ok(reading) => same_reading(input, &reading),
        Err(refused) => {
            (refused.block == number) & words::is_word(input, u64::from(refused.why))
        }
    }
}
