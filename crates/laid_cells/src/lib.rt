// Laid cells: the cells of a piece round its centre, put into the caller's list as four numbers each.
//
// It stands under Cells: an attempt at a piece calls it once, when its corners, middles and centre have their numbers. The
// definitions are those of Quads.

#![tactic(auto)]

ghost use Rattle.std.specs.Prelude.{◌≡◌, ◌++◌, ◌*◌, ◌≤◌, length, drop};
ghost use Rattle.quads.specs.Flat.{four, over_cells};
ghost use Rattle.quads.specs.Round.{cells_of};

use nodes::NodeNumber;
use quads::{Cell, Round};

// A cell's four numbers, over the first places of a list.
// Kept: cells stand in the list as numbers, four each, as C lends it.
fn put_cell(out: &mut [NodeNumber], c: Cell)
    requires { 4 ≤ length out.old }
    ensures { out.new ≡ four c ++ drop 4 out.old }
{
    let four: [NodeNumber; 4] = c.into();
    out[..4].copy_from_slice(&four);
}

// The cells of a piece round its centre, over the first places of a list.
pub fn put_cells(cells: &mut [NodeNumber], round: &Round<'_>)
    requires { length round.now.middles.now * 4 ≤ length cells.old }
    ensures { cells.new ≡ over_cells cells.old (cells_of round.now) }
{
    // Kept: k is counted. Over the fours of `as_chunks_mut` and over those of `chunks_exact_mut`, both tried, the promise doesn't close:
    // the library says what a four holds as it is lent, and nothing of what the list ends as.
    for k in 0..round.middles.len() {
        let at = k * 4;
        put_cell(&mut cells[at..], round.cell(k));
    }
}
