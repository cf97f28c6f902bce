// The entry that a call is of: the examination, one that takes a set of limits, the practice paper, or the examination over
// cell records.

use given_tests::Marking;
use nodes::NodeNumber;
use quads::Cell;
use std::io::Read;
use table::Row;
use words::Field;

// The five values of a set of limits, as C hands them over.
// Kept: no `Limits`, whose count of cuts is a usize, where C's has 32 bits.
#[derive(Clone, Copy)]
pub struct Set {
    pub corner: f64,
    pub least: f64,
    pub greatest: f64,
    pub cuts: u32,
    pub share: f64,
}

impl Set {
    // The set that comes next in the file.
    pub fn read<R: Read>(input: &mut R) -> Set {
        Set {
            corner: f64::read(input),
            least: f64::read(input),
            greatest: f64::read(input),
            cuts: u32::read(input),
            share: f64::read(input),
        }
    }
}

// What a call divides: a ring by its chain, or with given marks, and the size of its sheet.
// Kept: no `divider::ByChain` in the first: the exported entries take the three one by one, and the second has no such type.
#[derive(Clone, Copy)]
pub enum Asked<'a> {
    Chain {
        ring: &'a [i32],
        chain: &'a [i32],
        size: u32,
    },
    Marks {
        ring: &'a [i32],
        marking: Marking<'a>,
        size: u32,
    },
}

#[derive(Clone, Copy)]
pub enum Entry {
    Examination,
    WithSet(Set),
    Practice,
    OverRecords,
}

// The call over cell records. A record stands for four numbers of the cell list, each of them 65,535 before the call, as
// they are there; after it its numbers go there.
fn over_records(
    ring: &[i32],
    chain: &[i32],
    size: u32,
    nodes: &mut [f64],
    used: usize,
    rims: &mut [u8],
    cells: &mut [NodeNumber],
    cell_count: usize,
) -> Row {
    let blank = Cell::from([65535; 4]);
    let mut records = [blank; 512];
    let n = (cells.len() / 4).min(512);
    let lent = &mut records[..n];
    let v = cell_records::ring_divide_cells(ring, chain, size, nodes, used, rims, lent, cell_count);
    let (fours, _) = cells.as_chunks_mut::<4>();
    for (four, cell) in fours.iter_mut().zip(&records[..n]) {
        *four = <[NodeNumber; 4]>::from(*cell);
    }
    v
}

// Kept: what a call is lent comes list by list; of a struct of these lists the proof of no call closed.
impl Entry {
    pub fn divide(
        self,
        asked: Asked<'_>,
        nodes: &mut [f64],
        used: usize,
        rims: &mut [u8],
        cells: &mut [NodeNumber],
        cell_count: usize,
    ) -> Row {
        match asked {
            Asked::Chain { ring, chain, size } => {
                self.by_chain(ring, chain, size, nodes, used, rims, cells, cell_count)
            }
            Asked::Marks {
                ring,
                marking,
                size,
            } => self.marked(ring, marking, size, nodes, used, rims, cells, cell_count),
        }
    }

    fn by_chain(
        self,
        ring: &[i32],
        chain: &[i32],
        size: u32,
        nodes: &mut [f64],
        used: usize,
        rims: &mut [u8],
        cells: &mut [NodeNumber],
        cell_count: usize,
    ) -> Row {
        match self {
            Entry::Examination => {
                exports::ring_divide(ring, chain, size, nodes, used, rims, cells, cell_count)
            }
            Entry::WithSet(s) => exports::ring_divide_set(
                s.corner, s.least, s.greatest, s.cuts, s.share, ring, chain, size, nodes, used,
                rims, cells, cell_count,
            ),
            Entry::Practice => exports::ring_divide_practice(
                ring, chain, size, nodes, used, rims, cells, cell_count,
            ),
            Entry::OverRecords => over_records(
                ring, chain, size, nodes, used, rims, cells, cell_count,
            ),
        }
    }

    // The practice paper has no call with given marks, nor is there one over cell records: one in a list is run as the
    // examination's.
    fn marked(
        self,
        ring: &[i32],
        marking: Marking<'_>,
        size: u32,
        nodes: &mut [f64],
        used: usize,
        rims: &mut [u8],
        cells: &mut [NodeNumber],
        cell_count: usize,
    ) -> Row {
        let Marking {
            kinds,
            snaps,
            outline,
            loops,
        } = marking;
        match self {
            Entry::WithSet(s) => exports::ring_divide_marked_set(
                s.corner, s.least, s.greatest, s.cuts, s.share, ring, kinds, snaps, outline, loops,
                size, nodes, used, rims, cells, cell_count,
            ),
            Entry::Examination | Entry::Practice | Entry::OverRecords =>
                exports::ring_divide_marked(
                    ring, kinds, snaps, outline, loops, size, nodes, used, rims, cells, cell_count,
                ),
        }
    }
}
