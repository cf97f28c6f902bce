// Exports for C: the functions that programs in other languages call, in one static library (`rt lib` here makes
// out/libexports_c.a; embed/).
//
// It stands at the top, beside the programs. A crate is a library or a static library and not both, so each function is that of
// `exports` under its C name, with its promise word for word. A slice arrives as its address and its length, a struct comes back
// by value. Nothing is asked of a caller.
// Kept: one call each beside those of `exports`, since a C function has one name and no type parameter.
#![tactic(auto)]

ghost use Rattle.std.specs.Prelude.{◌≡◌, length};
ghost use Rattle.root.specs.Root.{root_bits};
ghost use Rattle.limits.specs.Limits.{delivered};
ghost use Rattle.call.specs.Lent.{lent};
ghost use Rattle.call.specs.Marked.{lent_marked};
ghost use Rattle.divider.specs.Promise.{Promise};
ghost use Rattle.marked.specs.Promise.{MarkedPromise};
ghost use Rattle.paper.specs.Practice as Practice;
ghost use Rattle.smallest.specs.Smallest as Rule;
ghost use Rattle.writer.specs.Write as Write;
ghost use Rattle.listing.specs.Sheet as Sheet;
ghost use Rattle.wear.specs.Bytes as Bytes;

use nodes::NodeNumber;
use smallest::Smallest;
use table::Row;
use wear::Wear;

// The divider call: one row of the table, and the lists as it says: nodes, their rim marks, and cells.
#[unsafe(no_mangle)]
pub extern "C" fn ring_divide(
    ring: &[i32],
    chain: &[i32],
    size: u32,
    nodes: &mut [f64],
    node_count: usize,
    rims: &mut [u8],
    cells: &mut [NodeNumber],
    cell_count: usize,
) -> Row
    ensures { Promise delivered (lent ring.now chain.now size nodes.old node_count rims.old
        cells.old cell_count) result nodes.new rims.new cells.new }
{
    exports::ring_divide(
        ring, chain, size, nodes, node_count, rims, cells, cell_count,
    )
}

// The same with the caller's set of limits: the bad-corner limit, the least and the greatest cosine of a diagonal, the
// number of cuts and the snap share.
#[unsafe(no_mangle)]
pub extern "C" fn ring_divide_set(
    corner: f64,
    least: f64,
    greatest: f64,
    cuts: u32,
    share: f64,
    ring: &[i32],
    chain: &[i32],
    size: u32,
    nodes: &mut [f64],
    node_count: usize,
    rims: &mut [u8],
    cells: &mut [NodeNumber],
    cell_count: usize,
) -> Row
    ensures { Promise (record { cuts = cuts; corner = corner; least = least; greatest = greatest; share = share })
        (lent ring.now chain.now size nodes.old node_count rims.old cells.old cell_count)
        result nodes.new rims.new cells.new }
{
    exports::ring_divide_set(
        corner, least, greatest, cuts, share, ring, chain, size, nodes, node_count, rims, cells,
        cell_count,
    )
}

// The divider call with given marks: 0 straight, 1 snapped to its given point, 2 snapped to the outline.
#[unsafe(no_mangle)]
pub extern "C" fn ring_divide_marked(
    ring: &[i32],
    kinds: &[u8],
    snaps: &[f64],
    outline: &[i32],
    loops: &[u32],
    size: u32,
    nodes: &mut [f64],
    node_count: usize,
    rims: &mut [u8],
    cells: &mut [NodeNumber],
    cell_count: usize,
) -> Row
    ensures { MarkedPromise delivered (lent_marked ring.now
        (record { kinds = kinds.now; snaps = snaps.now; outline = outline.now; loops = loops.now })
        size nodes.old node_count rims.old cells.old cell_count)
        result nodes.new rims.new cells.new }
{
    exports::ring_divide_marked(
        ring, kinds, snaps, outline, loops, size, nodes, node_count, rims, cells, cell_count,
    )
}

// The same with the caller's set of limits.
#[unsafe(no_mangle)]
pub extern "C" fn ring_divide_marked_set(
    corner: f64,
    least: f64,
    greatest: f64,
    cuts: u32,
    share: f64,
    ring: &[i32],
    kinds: &[u8],
    snaps: &[f64],
    outline: &[i32],
    loops: &[u32],
    size: u32,
    nodes: &mut [f64],
    node_count: usize,
    rims: &mut [u8],
    cells: &mut [NodeNumber],
    cell_count: usize,
) -> Row
    ensures { MarkedPromise (record { cuts = cuts; corner = corner; least = least; greatest = greatest; share = share })
        (lent_marked ring.now (record { kinds = kinds.now; snaps = snaps.now; outline = outline.now; loops = loops.now })
        size nodes.old node_count rims.old cells.old cell_count)
        result nodes.new rims.new cells.new }
{
    exports::ring_divide_marked_set(
        corner, least, greatest, cuts, share, ring, kinds, snaps, outline, loops, size, nodes,
        node_count, rims, cells, cell_count,
    )
}

// The divider call of the practice paper.
#[unsafe(no_mangle)]
pub extern "C" fn ring_divide_practice(
    ring: &[i32],
    chain: &[i32],
    size: u32,
    nodes: &mut [f64],
    node_count: usize,
    rims: &mut [u8],
    cells: &mut [NodeNumber],
    cell_count: usize,
) -> Row
    ensures { Practice.PracticePromise (lent ring.now chain.now size nodes.old node_count rims.old
        cells.old cell_count) result nodes.new rims.new cells.new }
{
    exports::ring_divide_practice(
        ring, chain, size, nodes, node_count, rims, cells, cell_count,
    )
}

// The smallest choice of a ring's points that is still refused with the ring's own number, 5 to 8; or 1, 2, 18 or 19.
#[unsafe(no_mangle)]
pub extern "C" fn smallest_refused(ring: &[i32], chain: &[i32], size: u32) -> Smallest
    ensures { result ≡ Rule.smallest_refused ring.now chain.now size }
{
    exports::smallest_refused(ring, chain, size)
}

// A ring and its chain saved as blocks `number` and `number + 1`: 0, or the refusal 1, 2 or 12.
#[unsafe(no_mangle)]
pub extern "C" fn blocks_write(
    ring: &[i32],
    chain: &[i32],
    size: u32,
    number: u32,
    out: &mut [u8],
) -> u64
    ensures { (result ≡ Write.refusal ring.now chain.now size number (length out.old))
        × (out.new ≡ Write.written ring.now chain.now size number out.old) }
{
    exports::blocks_write(ring, chain, size, number, out)
}

// The cell sheet of the first `node_count` nodes: 0, or the refusal 3 or 17.
#[unsafe(no_mangle)]
pub extern "C" fn node_sheet(nodes: &[f64], node_count: usize, out: &mut [u8]) -> u64
    ensures { (result ≡ Sheet.answer nodes.now node_count out.old)
        × (out.new ≡ Sheet.left nodes.now node_count out.old) }
{
    exports::node_sheet(nodes, node_count, out)
}

// A divider call's answer, its number and its cuts, into the record of the last 32 rings, in 34 bytes: the three values, or 20.
#[unsafe(no_mangle)]
pub extern "C" fn wear_add(record: &mut [u8], code: u64, cuts: u64) -> Wear
    ensures { (result ≡ Bytes.returned «record».old code cuts) × («record».new ≡ Bytes.left «record».old code cuts) }
{
    exports::wear_add(record, code, cuts)
}

// The square root, over bit patterns: a NaN that crosses as a double has bits that no promise names. `bench/root` runs it beside
// the processor's own.
#[unsafe(no_mangle)]
pub extern "C" fn ring_root_bits(b: u64) -> u64
    ensures { result ≡ root_bits b }
{
    exports::ring_root_bits(b)
}
