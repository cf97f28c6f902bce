// Marked: the divider call with given marks, from a ring and its marks to its cells over the lists that a caller lends.
//
// It is an entry beside that of `divider`: a request whose tests are its own, and whose ring is prepared with the marks that
// survive cleaning. Whatever is handed over, the call ends, returns one row of the table and says of every place of the lists what
// is left there. specs/Promise has the promise, in which stands what holds of every accepted ring.

#![tactic(auto)]

ghost use Rattle.std.specs.Prelude.{◌/◌, length};
ghost use Rattle.limits.specs.Limits.{delivered};
ghost use Rattle.table.specs.Answers as Answers;
ghost use Rattle.call.specs.Marked.{lent_marked, all_points, marked_by};
ghost use Rattle.marked.specs.Promise.{MarkedPromise};
ghost use Rattle.given_tests.specs.Lent.{lent_in};
ghost use Rattle.marked.specs.Steps.{early_refusal};

use divider::{CellRoom, Request};
pub use given_tests::Marking;
use limits::Limits;
use marks::MarkedRing;
use nodes::{NodeNumber, RingBox};
use table::{Answer, Refusal};

// A ring whose edges have given marks.
#[derive(Clone, Copy)]
struct ByMarks<'a> {
    ring: &'a [i32],
    marking: Marking<'a>,
    size: u32,
}

impl<'a> Request for ByMarks<'a> {
    ghost early = { λ L s. early_refusal L s.ring.now (lent_in s.marking) s.size };

    ghost points = { λ s. length s.ring.now / 2 };

    ghost part = { λ s. marked_by s.size (lent_in s.marking) (all_points s.ring.now) };

    // 1 and 2 of the ring, 13 and 14 of its marks, 15 of the set.
    #[tactic(auto, using(crate::proofs::Refusing::no_chain), unfolding(crate::specs::Steps::early_refusal, laws::specs::Table::tab))]
    fn refusal(self, limits: Limits) -> Result<(), Refusal> {
        if lent_points::counts_out(self.ring.len(), 0) {
            return Err(Refusal::Counts);
        }
        if lent_points::units_out(self.ring, &[], self.size) {
            return Err(Refusal::Units);
        }
        if given_tests::marks_out(self.ring.len() / 2, self.marking) {
            return Err(Refusal::Marks);
        }
        if given_tests::outline_out(self.marking) {
            return Err(Refusal::Outline);
        }
        if limits::limits_out(limits) {
            return Err(Refusal::Limits);
        }
        Ok(())
    }

    fn own(self) -> usize {
        self.ring.len() / 2
    }

    fn ring_box(self, limits: Limits) -> RingBox {
        extent::ring_box_with_marks(self.ring, limits.share)
    }

    fn prepared(self) -> MarkedRing {
        let n = self.ring.len() / 2;
        let own = lent_points::points(self.ring, n);
        let clean = clean::clean_polygon(&own, self.size);
        let edges = given::surviving_marks(&own, &clean, self.marking);
        MarkedRing {
            ring: clean.ring,
            edges,
        }
    }
}

// The divider call with given marks and the caller's set of limits, over the lists that the caller lends.
pub fn divide_marked_set(
    limits: Limits,
    ring: &[i32],
    marking: Marking<'_>,
    size: u32,
    nodes: &mut [f64],
    node_count: usize,
    rims: &mut [u8],
    cells: &mut [NodeNumber],
    cell_count: usize,
) -> Answer
    ensures { MarkedPromise limits (lent_marked ring.now (lent_in marking.entry) size nodes.old node_count rims.old cells.old cell_count)
        (Answers.values result) nodes.new rims.new cells.new }
{
    let request = ByMarks {
        ring,
        marking,
        size,
    };
    let room = CellRoom {
        places: cells.len() / 4,
        used: cell_count,
        at: cell_count,
    };
    divider::divide_request(limits, request, nodes, node_count, rims, cells, room)
}

// The same with the set on delivery.
// Kept: C has an entry with a set and one without. One function for both would take an `Option` of a set, and its promise
// would be a match on it.
pub fn divide_marked(
    ring: &[i32],
    marking: Marking<'_>,
    size: u32,
    nodes: &mut [f64],
    node_count: usize,
    rims: &mut [u8],
    cells: &mut [NodeNumber],
    cell_count: usize,
) -> Answer
    ensures { MarkedPromise delivered (lent_marked ring.now (lent_in marking.entry) size nodes.old node_count rims.old cells.old cell_count)
        (Answers.values result) nodes.new rims.new cells.new }
{
    let limits = Limits::on_delivery();
    divide_marked_set(
        limits, ring, marking, size, nodes, node_count, rims, cells, cell_count,
    )
}
