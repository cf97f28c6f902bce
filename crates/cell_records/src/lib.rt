// Cell records: the divider call over a list of cell records.
//
// It is the outermost layer for callers that keep cells as records of four node numbers. The call is the divider's, its
// cells first written as plain numbers; then they go into the caller's list, one record after the other. `cell_records_c`
// has the call as a C function.
#![tactic(auto)]

ghost use Rattle.std.specs.Prelude.{◌≡◌, List, ◌+◌, ◌^◌, ◌≤◌, ◌<◌, length};
ghost use Rattle.limits.specs.Limits.{delivered};
ghost use Rattle.quads.specs.declared.Cell.{Cell};
ghost use Rattle.table.specs.Answers as Answers;
ghost use Rattle.call.specs.Call.{cell_reserve};
ghost use Rattle.call.specs.Lent.{lent};
ghost use Rattle.cell_records.specs.Records.{Numbers, RecordsPromise, written, laid_of};

use divider::CellRoom;
use limits::Limits;
use nodes::NodeNumber;
use quads::Cell;
use table::{Answer, Row};

// What a call comes to before its cells are in the list: their numbers, four a cell, the place that the first goes to,
// how many there are, and the row of the table.
// Kept: an array with a count beside it, since there is no heap.
#[derive(Clone, Copy)]
pub struct Laid {
    pub numbers: [NodeNumber; 496],
    pub at: usize,
    pub count: usize,
    pub values: Row,
}

// The cells laid go into the list.
fn write(cells: &mut [Cell], laid: &Laid)
    requires { (laid.now.count ≤ 124) × (0 < laid.now.count → laid.now.at + laid.now.count ≤ length cells.old) }
    ensures { cells.new ≡ written cells.old laid.now.at laid.now.numbers laid.now.count }
{
    let (fours, _) = laid.numbers.as_chunks::<4>();
    // Kept: the place is counted. Of `cells[at..].iter_mut().zip(..)` the library doesn't say what the list holds after the loop, and
    // where there is no cell, `at` may lie beyond the list.
    for (k, four) in fours[..laid.count].iter().enumerate() {
        cells[laid.at + k] = Cell::from(*four);
    }
}

// The answer for a ring of `own` points, over numbers that hold its cells from their first place on, for a list in which
// they go to place `at`. After a failure the places of the reserve are written too, with zeros.
// Kept: the numbers go in by value, since they are moved into what is returned.
fn placed(limits: Limits, own: usize, a: Answer, numbers: [NodeNumber; 496], at: usize) -> Laid
    requires { (at + (Answers.values a).cells < 2 ^ 64) × ((Answers.values a).code ≡ 8 → (3 ≤ own) × (own ≤ 60)) }
    ensures { result ≡ laid_of (Answers.values a) numbers at (cell_reserve limits own) }
{
    let row = Row::from(a);
    let count = match a {
        Answer::Failed { .. } => entry::reserve_of(limits, own).cells,
        Answer::Divided { cells, .. } | Answer::Refused { cells, .. } => cells,
    };
    Laid {
        numbers,
        at,
        count,
        values: Row {
            cells: at as u64 + row.cells,
            ..row
        },
    }
}

// The call with its cells as numbers, for a cell list of this many places.
fn flat_divide(
    ring: &[i32],
    chain: &[i32],
    size: u32,
    nodes: &mut [f64],
    node_count: usize,
    rims: &mut [u8],
    cell_places: usize,
    cell_count: usize,
) -> Laid
    ensures { ((cells : List Cell) → length cells ≡ cell_places
        → Numbers delivered (lent ring.now chain.now size nodes.old node_count rims.old cells cell_count)
        result nodes.new rims.new)
        × (result.count ≤ 124) × (0 < result.count → result.at + result.count ≤ cell_places) }
{
    let limits = Limits::on_delivery();
    let mut numbers = [0; 496];
    let room = CellRoom {
        places: cell_places,
        used: cell_count,
        at: 0,
    };
    let a = divider::divide_with(
        limits,
        ring,
        chain,
        size,
        nodes,
        node_count,
        rims,
        &mut numbers,
        room,
    );
    placed(limits, ring.len() / 2, a, numbers, cell_count)
}

// The divider call over a list of cell records.
pub fn ring_divide_cells(
    ring: &[i32],
    chain: &[i32],
    size: u32,
    nodes: &mut [f64],
    node_count: usize,
    rims: &mut [u8],
    cells: &mut [Cell],
    cell_count: usize,
) -> Row
    ensures { RecordsPromise delivered (lent ring.now chain.now size nodes.old node_count rims.old
        cells.old cell_count) result nodes.new rims.new cells.new }
{
    let laid = flat_divide(
        ring,
        chain,
        size,
        nodes,
        node_count,
        rims,
        cells.len(),
        cell_count,
    );
    write(cells, &laid);
    laid.values
}
