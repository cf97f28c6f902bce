// Entry: the tests that a divider call makes of its input before it touches it: of the ring, the chain and the set of limits,
// 1, 2 and 15, and of the lists, 3 and 4.
//
// It stands at the beginning of the way of a ring. What a caller lends are flat lists: nodes are numbers, x and y in turn, a
// rim mark is a byte, a cell four numbers. Nothing is asked of them: every count and every number is tested. While the used
// nodes are tested, those in the ring's box are collected (`survey`).

#![tactic(auto)]

ghost use Rattle.std.specs.Prelude.{◌≡◌, ◌||◌, not, cond, List, IfOk, ◌/◌, ◌≤◌, ltb, length, get_or};
ghost use Rattle.laws.specs.Bounded.{any};
ghost use Rattle.vector.specs.Rings.{most_points};
ghost use Rattle.nodes.specs.Nearby.{most_nearby, Framed, ValidNearby};
ghost use Rattle.quads.specs.declared.Cell.{Cell};
ghost use Rattle.table.specs.Answers.{code_of};
ghost use Rattle.call.specs.Call as Call;
ghost use Rattle.call.specs.Lent.{lent_lists};
ghost use Rattle.entry.specs.Refusal as Tests;

use limits::Limits;
use nodes::{MOST_PLACES, Nearby, NodeNumber, RingBox};
use reserve::FreePlaces;
use table::Refusal;

// A used rim mark is neither set (1) nor clear (0). Nothing ends the scan, so that several are judged at once.
fn any_mark_out(rims: &[u8], used: usize) -> bool
    requires { used ≤ length rims.now }
    ensures { result ≡ any (λ i. ltb 1 (get_or rims.now i 0)) used }
{
    rims[..used]
        .iter()
        .fold(false, |found, &mark| found | (1 < mark))
}

// 3 of the counts: a used count above its list, too many node places, or too few rim marks.
#[tactic(auto, unfolding(crate::specs::Refusal::counts_over))]
fn counts_over(
    places: usize,
    node_count: usize,
    marks: usize,
    cell_places: usize,
    cell_count: usize,
) -> bool
    ensures { result ≡ Tests.counts_over places node_count marks cell_places cell_count }
{
    places < node_count || cell_places < cell_count || MOST_PLACES < places || marks < places
}

// The places that a ring of r points may take.
pub fn reserve_of(limits: Limits, r: usize) -> FreePlaces
    requires { (3 ≤ r) × (r ≤ most_points) }
    ensures nodes { result.nodes ≡ Call.node_reserve limits r }
    ensures cells { result.cells ≡ Call.cell_reserve limits r }
{
    reserve::places_for(limits.cuts, r)
}

// 4: too few free places.
#[tactic(auto, unfolding(call::specs::Call::room_out_of))]
fn room_out(limits: Limits, r: usize, free: FreePlaces) -> bool
    requires { (3 ≤ r) × (r ≤ most_points) }
    ensures { result ≡ Call.room_out_of limits r free.nodes free.cells }
{
    let reserve = reserve_of(limits, r);
    free.nodes < reserve.nodes || free.cells < reserve.cells
}

// 3 of the used nodes, which are all on the sheet or not, and of the used marks; and 4.
fn used_refusal(
    limits: Limits,
    own: usize,
    on_sheet: bool,
    rims: &[u8],
    node_count: usize,
    free: FreePlaces,
) -> Result<(), Refusal>
    requires { (node_count ≤ length rims.now) × (3 ≤ own) × (own ≤ most_points) }
    ensures { code_of result ≡ cond (not on_sheet || any (λ i. ltb 1 (get_or rims.now i 0)) node_count) 3
        (cond (Call.room_out_of limits own free.nodes free.cells) 4 0) }
{
    if !on_sheet || any_mark_out(rims, node_count) {
        return Err(Refusal::Lists);
    }
    if room_out(limits, own, free) {
        return Err(Refusal::Room);
    }
    Ok(())
}

// The first refusal of the ring, the chain and the set of limits: 1, 2 and 15.
#[tactic(auto, unfolding(crate::specs::Refusal::points_refusal))]
pub fn points_refusal(limits: Limits, ring: &[i32], chain: &[i32], size: u32) -> Result<(), Refusal>
    ensures { code_of result ≡ Tests.points_refusal limits ring.now chain.now size }
{
    if lent_points::counts_out(ring.len(), chain.len()) {
        return Err(Refusal::Counts);
    }
    if lent_points::units_out(ring, chain, size) {
        return Err(Refusal::Units);
    }
    if limits::limits_out(limits) {
        return Err(Refusal::Limits);
    }
    Ok(())
}

// The first refusal of the lists for a ring of `own` points, 3 and 4, or the nodes that were collected. Of the cell list only
// the number of its places is looked at. Where the counts fit, the used nodes in the box are collected.
// Kept: of the node list, its count, the rim marks and the cells this reads the first three and lends none on, where the core
// writes all. A struct of them would be borrowed here with cells that nothing looks at, and that `cell_records` has not.
#[tactic(auto, using(crate::proofs::Tests::counts_hold, crate::proofs::Tests::over, crate::proofs::Tests::looked_all, crate::proofs::Tests::all, survey::proofs::Gathering::held))]
pub fn lists_refusal(
    limits: Limits,
    own: usize,
    nodes: &[f64],
    node_count: usize,
    rims: &[u8],
    cell_places: usize,
    cell_count: usize,
    w: RingBox,
    numbers: &mut [NodeNumber],
    xs: &mut [f64],
) -> Result<Nearby, Refusal>
    requires { (3 ≤ own) × (own ≤ most_points) × Framed w × (length numbers.old ≡ most_nearby) × (length xs.old ≡ most_nearby) }
    ensures code { (cells : List Cell) → length cells ≡ cell_places → code_of result ≡ Tests.lists_refusal limits own
        (lent_lists nodes.now node_count rims.now cells cell_count) }
    ensures looked { Tests.Looked w nodes.now (Tests.looked_at (length nodes.now / 2) node_count (length rims.now)
        cell_places cell_count) numbers.old xs.old result numbers.new xs.new }
    ensures near { IfOk result (λ near. ValidNearby nodes.now node_count near numbers.new xs.new) }
{
    let places = nodes.len() / 2;
    if counts_over(places, node_count, rims.len(), cell_places, cell_count) {
        return Err(Refusal::Lists);
    }
    let s = survey::used_nodes(nodes, node_count, w, numbers, xs);
    let free = FreePlaces {
        nodes: places - node_count,
        cells: cell_places - cell_count,
    };
    used_refusal(limits, own, s.on_sheet, rims, node_count, free)?;
    Ok(s.near)
}
