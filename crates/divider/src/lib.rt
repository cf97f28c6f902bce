// Divider: the whole call, from a ring to its cells over the lists that a caller lends.
//
// It is where the way of a ring comes together. A request is tested, its ring is prepared with the marks of its edges, and
// handed to the core: the tests of the cleaned ring, the split, and the cells of its pieces. Whatever is handed over, the
// call ends, returns one row of the table and says of every place of the lists what is left there. specs/Promise has the
// promise, in which stands what holds of every accepted ring.

#![tactic(auto)]

ghost use Rattle.std.specs.Prelude.{◌≡◌, List, IfOk, nat_abs, length};
ghost use Rattle.vector.specs.Grid.{polygon_area};
ghost use Rattle.vector.specs.Rings.{points_of, OnSheetRing};
ghost use Rattle.marks.specs.Edges.{part_in};
ghost use Rattle.limits.specs.Limits.{delivered};
ghost use Rattle.split.specs.Split.{split_bad_vertices};
ghost use Rattle.nodes.specs.Nearby.{ValidCollected};
ghost use Rattle.quads.specs.declared.Cell.{Cell};
ghost use Rattle.table.specs.Answers as Answers;
ghost use Rattle.table.specs.Refusals.{first_of};
ghost use Rattle.call.specs.Divide.{Whole, outcome_of, answered, core, ring_tests};
ghost use Rattle.call.specs.Lent.{lent, lent_lists};
ghost use Rattle.divider.specs.Promise.{Leaves, Promise};
ghost use Rattle.entry.specs.Refusal.{lists_refusal};
ghost use Rattle.divider.specs.Steps.{Passing, lists_in, returned, CanDivideRing, divide_by, divide_into, HasRoom};

mod requests;

use limits::Limits;
use marks::MarkedRing;
use nodes::{Collected, MOST_NEARBY, NodeNumber};
pub use requests::{ByChain, Request};
use table::{Answer, Refusal};
use vector::Ring;

// The refusal of a cleaned ring, 5 to 7, or its doubled area.
fn ring_refusal(ring: &Ring) -> Result<u64, Refusal>
    requires { OnSheetRing ring.now }
    ensures code { Answers.code_of result ≡ first_of (ring_tests (points_of ring.now)) }
    ensures area { IfOk result (λ area. area ≡ nat_abs (polygon_area (points_of ring.now))) }
{
    if ring.count < 3 {
        return Err(Refusal::UnderThree);
    }
    let points = ring.as_slice();
    if !simple::polygon_simple(points) {
        return Err(Refusal::NotSimple);
    }
    let area = vector::polygon_area(points);
    if area <= 0 {
        return Err(Refusal::NoArea);
    }
    Ok(area.unsigned_abs())
}

// Kept: here and in the crates below the lists stand side by side, as C hands them over; a struct of their `&mut`s adds to each
// contract that its references stay the same.

// The pieces of a ring of `own` points that passed every test, and their cells over the places from cell_count on. Its
// doubled area is the one that the tests found, and the used nodes nearby were collected.
fn lay_out(
    limits: Limits,
    ring: &MarkedRing,
    area: u64,
    own: usize,
    nodes: &mut [f64],
    node_count: usize,
    rims: &mut [u8],
    cells: &mut [NodeNumber],
    cell_count: usize,
    found: Collected<'_>,
) -> Answer
    requires { CanDivideRing limits own ring.now nodes.old node_count rims.old cells.old cell_count × Whole (part_in ring.now).points
        × (area ≡ nat_abs (polygon_area (part_in ring.now).points)) × ValidCollected nodes.old node_count found }
    ensures { Leaves (answered limits own (part_in ring.now) (lists_in nodes.old node_count rims.old
        cells.old cell_count) (split_bad_vertices limits (part_in ring.now))
        (outcome_of limits (part_in ring.now) (lists_in nodes.old node_count rims.old cells.old cell_count)))
        (Answers.values result) nodes.old nodes.new rims.new cells.old cells.new }
{
    let reserve = entry::reserve_of(limits, own).cells;
    let s = split::split_bad_vertices(limits, &ring.ring);
    let laid = pieces::subdivide_all(
        nodes,
        node_count,
        rims,
        cells,
        cell_count,
        reserve,
        ring,
        &s.pieces,
        limits.share,
        found,
    );
    match laid {
        Ok(laid) => Answer::Divided {
            corners: ring.ring.count,
            marked: marks::mark_count(ring),
            cuts: s.cuts,
            pieces: s.pieces.count,
            turned: s.turned,
            area,
            nodes: laid.nodes,
            cells: cell_count + laid.cells,
        },
        Err(piece) => Answer::Failed {
            corners: piece.corners,
            k: piece.k,
            nodes: piece.nodes,
            cells: cell_count,
        },
    }
}

// The core, which every entry calls: a ring of `own` points, cleaned and with its marks, wherever they came from, and the
// used nodes nearby. Refusals 5 to 7, or its pieces and their cells.
pub fn divide_core(
    limits: Limits,
    ring: &MarkedRing,
    own: usize,
    nodes: &mut [f64],
    node_count: usize,
    rims: &mut [u8],
    cells: &mut [NodeNumber],
    cell_count: usize,
    found: Collected<'_>,
) -> Result<Answer, Refusal>
    requires { CanDivideRing limits own ring.now nodes.old node_count rims.old cells.old cell_count
        × ValidCollected nodes.old node_count found }
    ensures { Leaves (core limits own (part_in ring.now) (lists_in nodes.old node_count rims.old cells.old cell_count))
        (returned result node_count cell_count) nodes.old nodes.new rims.new cells.old cells.new }
{
    let area = ring_refusal(&ring.ring)?;
    Ok(lay_out(
        limits, ring, area, own, nodes, node_count, rims, cells, cell_count, found,
    ))
}

// The answer of a call: that of its last step, or the refusal of one, with the caller's two counts.
fn answer_of(step: Result<Answer, Refusal>, nodes: usize, cells: usize) -> Answer
    ensures { Answers.values result ≡ returned step nodes cells }
{
    step.unwrap_or_else(|why| Answer::Refused { why, nodes, cells })
}

// The caller's cell list, of which the tests look at the number of places and at how many are used; and the place where
// the ring's cells go in a list of numbers, which is that list or another.
// Kept: no constructor for a whole list. Two entries would call it, `divide_set` and that of `marked`; cell records are tested by their
// own count, and go to place 0 of other numbers. It would be as long as what it takes from the two, and its contract would say
// the three fields once more, for both promises to be led through.
#[derive(Clone, Copy)]
pub struct CellRoom {
    pub places: usize,
    pub used: usize,
    pub at: usize,
}

// Kept: the steps of a call are three functions, though they are one walk. What a function holds is cleared as it begins: a
// call that an early test refuses is not to pay for the nodes nearby, nor one that a test of the lists refuses for the ring.

// The last steps of a call that no test before the core refuses: the ring that is prepared, and the core.
fn prepared_steps<R: Request>(
    limits: Limits,
    request: R,
    nodes: &mut [f64],
    node_count: usize,
    rims: &mut [u8],
    cells: &mut [NodeNumber],
    room: CellRoom,
    found: Collected<'_>,
) -> Result<Answer, Refusal>
    requires room { HasRoom limits room cells.old }
    requires tested { R.early limits request ≡ 0 }
    requires passing { Passing limits (R.points request) (R.part request) }
    requires lists { (cs : List Cell) → length cs ≡ room.places
        → lists_refusal limits (R.points request) (lent_lists nodes.old node_count rims.old cs room.used) ≡ 0 }
    requires nearby { ValidCollected nodes.old node_count found }
    ensures { (cs : List Cell) → length cs ≡ room.places
        → Leaves (divide_by limits (R.early limits request) (R.points request) (R.part request)
        (lent_lists nodes.old node_count rims.old cs room.used) (lists_in nodes.old node_count rims.old cells.old room.at))
        (returned result node_count room.at) nodes.old nodes.new rims.new cells.old cells.new }
{
    let own = request.own();
    let marked = request.prepared();
    divide_core(
        limits, &marked, own, nodes, node_count, rims, cells, room.at, found,
    )
}

// The steps of a call that no early test refuses: the tests of the lists, and the last steps.
fn tested_steps<R: Request>(
    limits: Limits,
    request: R,
    nodes: &mut [f64],
    node_count: usize,
    rims: &mut [u8],
    cells: &mut [NodeNumber],
    room: CellRoom,
) -> Result<Answer, Refusal>
    requires room { HasRoom limits room cells.old }
    requires tested { R.early limits request ≡ 0 }
    requires passing { Passing limits (R.points request) (R.part request) }
    ensures { (cs : List Cell) → length cs ≡ room.places
        → Leaves (divide_by limits (R.early limits request) (R.points request) (R.part request)
        (lent_lists nodes.old node_count rims.old cs room.used) (lists_in nodes.old node_count rims.old cells.old room.at))
        (returned result node_count room.at) nodes.old nodes.new rims.new cells.old cells.new }
{
    let own = request.own();
    let w = request.ring_box(limits);
    let mut numbers = [0; MOST_NEARBY];
    let mut xs = [0.0; MOST_NEARBY];
    let near = entry::lists_refusal(
        limits,
        own,
        nodes,
        node_count,
        rims,
        room.places,
        room.used,
        w,
        &mut numbers,
        &mut xs,
    )?;
    let found = Collected {
        near,
        numbers: &numbers,
        xs: &xs,
    };
    prepared_steps(limits, request, nodes, node_count, rims, cells, room, found)
}

// The steps of a call: its tests, the ring that is prepared, and the core. The first that refuses ends them.
fn divide_steps<R: Request>(
    limits: Limits,
    request: R,
    nodes: &mut [f64],
    node_count: usize,
    rims: &mut [u8],
    cells: &mut [NodeNumber],
    room: CellRoom,
) -> Result<Answer, Refusal>
    requires { HasRoom limits room cells.old }
    ensures { (cs : List Cell) → length cs ≡ room.places
        → Leaves (divide_by limits (R.early limits request) (R.points request) (R.part request)
        (lent_lists nodes.old node_count rims.old cs room.used) (lists_in nodes.old node_count rims.old cells.old room.at))
        (returned result node_count room.at) nodes.old nodes.new rims.new cells.old cells.new }
{
    request.refusal(limits)?;
    tested_steps(limits, request, nodes, node_count, rims, cells, room)
}

// A request with a set of limits, its cells written as numbers: every entry, whatever the marks come from.
pub fn divide_request<R: Request>(
    limits: Limits,
    request: R,
    nodes: &mut [f64],
    node_count: usize,
    rims: &mut [u8],
    cells: &mut [NodeNumber],
    room: CellRoom,
) -> Answer
    requires { HasRoom limits room cells.old }
    ensures { (cs : List Cell) → length cs ≡ room.places
        → Leaves (divide_by limits (R.early limits request) (R.points request) (R.part request)
        (lent_lists nodes.old node_count rims.old cs room.used) (lists_in nodes.old node_count rims.old cells.old room.at))
        (Answers.values result) nodes.old nodes.new rims.new cells.old cells.new }
{
    let step = divide_steps(limits, request, nodes, node_count, rims, cells, room);
    answer_of(step, node_count, room.at)
}

// Kept: a ring, its chain and its size come one by one from C, as the lists do. An entry that takes a `ByChain` would have
// each caller build one, and promise the same of its three fields; a caller that has one hands it to `divide_request`.

// The divider call with a set of limits, its cells written as numbers.
pub fn divide_with(
    limits: Limits,
    ring: &[i32],
    chain: &[i32],
    size: u32,
    nodes: &mut [f64],
    node_count: usize,
    rims: &mut [u8],
    cells: &mut [NodeNumber],
    room: CellRoom,
) -> Answer
    requires { HasRoom limits room cells.old }
    ensures { (cs : List Cell) → length cs ≡ room.places
        → Leaves (divide_into limits (lent ring.now chain.now size nodes.old node_count rims.old cs room.used) cells.old room.at)
        (Answers.values result) nodes.old nodes.new rims.new cells.old cells.new }
{
    let request = ByChain { ring, chain, size };
    divide_request(limits, request, nodes, node_count, rims, cells, room)
}

// The divider call with the caller's set of limits, over the lists that the caller lends.
pub fn divide_set(
    limits: Limits,
    ring: &[i32],
    chain: &[i32],
    size: u32,
    nodes: &mut [f64],
    node_count: usize,
    rims: &mut [u8],
    cells: &mut [NodeNumber],
    cell_count: usize,
) -> Answer
    ensures { Promise limits (lent ring.now chain.now size nodes.old node_count rims.old cells.old cell_count)
        (Answers.values result) nodes.new rims.new cells.new }
{
    let room = CellRoom {
        places: cells.len() / 4,
        used: cell_count,
        at: cell_count,
    };
    divide_with(
        limits, ring, chain, size, nodes, node_count, rims, cells, room,
    )
}

// The divider call with the set on delivery.
// Kept: C has an entry with a set and one without. One function for both would take an `Option` of a set, and its promise
// would be a match on it.
pub fn divide(
    ring: &[i32],
    chain: &[i32],
    size: u32,
    nodes: &mut [f64],
    node_count: usize,
    rims: &mut [u8],
    cells: &mut [NodeNumber],
    cell_count: usize,
) -> Answer
    ensures { Promise delivered (lent ring.now chain.now size nodes.old node_count rims.old cells.old cell_count)
        (Answers.values result) nodes.new rims.new cells.new }
{
    let limits = Limits::on_delivery();
    divide_set(
        limits, ring, chain, size, nodes, node_count, rims, cells, cell_count,
    )
}
