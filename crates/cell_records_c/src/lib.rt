// Cell records for C: the divider call over a list of cell records, in a static library (`rt lib` here makes
// out/libcell_records_c.a; embed/cells.c calls it).
//
// It stands at the top, beside the programs. A crate is a library or a static library and not both, so this is the call of
// `cell_records` under its C name, with its promise word for word. A slice arrives as its address and its length, the row comes
// back by value. Nothing is asked of a caller.
#![tactic(auto)]

ghost use Rattle.limits.specs.Limits.{delivered};
ghost use Rattle.call.specs.Lent.{lent};
ghost use Rattle.cell_records.specs.Records.{RecordsPromise};

use quads::Cell;
use table::Row;

// The divider call over a list of cell records.
#[unsafe(no_mangle)]
pub extern "C" fn ring_divide_cells(
    ring: &[i32],
    chain: &[i32],
    size: u32,
    nodes: &mut [f64],
    node_count: usize,
    rims: &mut [u8],
    cells: &mut [Cell],
    cell_count: usize,
) -> Row
    ensures { RecordsPromise delivered (lent ring.now chain.now size nodes.old node_count rims.old
        cells.old cell_count) result nodes.new rims.new cells.new }
{
    cell_records::ring_divide_cells(
        ring, chain, size, nodes, node_count, rims, cells, cell_count,
    )
}
