// Desk: runs the fixed lists of what stands beside the divider, with the answers expected, and compares every returned value
// and every byte that is left: the cell sheet, the record of wear, the smallest ring still refused, and how two segments meet.
// docs/REPLAY.md has the form of the lists.

#![tactic(auto)]

mod crossings;

use std::io::Read;
use words::{Lists, Records, Tally, UnknownKind};

// A cell sheet: the used count, the node list, the bytes of the destination.
fn sheet<R: Read>(input: &mut R) -> bool {
    let used = words::long(input) as usize;
    let n = words::count(input);
    let room = words::count(input);
    let mut nodes = [0.0f64; 64];
    words::read_list(input, &mut nodes, n);
    if 64 < n || 1536 < room {
        return false;
    }
    let mut out = [0u8; 1536];
    words::fill(&mut out);
    let code = listing::node_sheet(&nodes[..n], used, &mut out[..room]);
    let answered = words::is_word(input, code);
    answered & words::same_bytes(input, &out)
}

// An answer into a record of wear: its number and its cuts, the bytes of the record.
fn wear_record<R: Read>(input: &mut R) -> bool {
    let number = words::long(input);
    let cuts = words::long(input);
    let n = words::count(input);
    let mut bytes = [0u8; 1536];
    words::fill(&mut bytes);
    words::read_list(input, &mut bytes, n);
    if 1536 < n {
        return false;
    }
    let w = wear::wear_add(&mut bytes[..n], number, cuts);
    let code = words::is_word(input, w.code);
    let total = words::is_word(input, w.total);
    let highest = words::is_word(input, w.highest);
    let rings = words::is_word(input, w.rings);
    code & total & highest & rings & words::same_bytes(input, &bytes)
}

// The smallest ring still refused: the ring and its chain, two numbers a point.
fn smallest_ring<R: Read>(input: &mut R) -> bool {
    let size = words::word(input);
    // Kept: replay reads two lists so too, of other sizes: one function for all would be generic in the size, and answer two arrays
    // with two counts.
    let r = words::count_to(input, 256);
    let c = words::count_to(input, 256);
    let mut ring = [0i32; 256];
    let mut chain = [0i32; 256];
    words::read_list(input, &mut ring, r);
    words::read_list(input, &mut chain, c);
    let s = smallest::smallest_refused(&ring[..r], &chain[..c], size);
    let code = words::is_word(input, s.code);
    let refusal = words::is_word(input, s.refusal);
    let choice = words::is_word(input, s.choice);
    let points = words::is_word(input, s.points);
    code & refusal & choice & points
}

// A record of a list, by the number that its first word has.
#[derive(Clone, Copy)]
enum Kind {
    Sheet,
    Wear,
    Smallest,
    Crossing,
}

impl TryFrom<u32> for Kind {
    type Error = UnknownKind;

    fn try_from(number: u32) -> Result<Kind, UnknownKind> {
        match number {
            5 => Ok(Kind::Sheet),
            6 => Ok(Kind::Wear),
            7 => Ok(Kind::Smallest),
            9 => Ok(Kind::Crossing),
            _ => Err(UnknownKind),
        }
    }
}

// The records, of which none leaves anything to the next.
#[derive(Drop)]
struct Desk;

impl Records for Desk {
    type Kind = Kind;

    // It counts as run.
    const UNOPENED: Tally = Tally { ran: 1, differ: 1 };

    const HOW: &'static str = "";

    fn new() -> Desk {
        Desk
    }

    fn run<R: Read>(&mut self, input: &mut R, kind: Kind) -> Option<bool> {
        Some(match kind {
            Kind::Sheet => sheet(input),
            Kind::Wear => wear_record(input),
            Kind::Smallest => smallest_ring(input),
            Kind::Crossing => crossings::crossing(input),
        })
    }
}

fn main(rt: HostRuntime) {
    let mut lists = Lists {
        files: &rt,
        output: &mut rt.stdout(),
        errors: &mut rt.stderr(),
    };
    for path in [
        "sheets.list",
        "wear.list",
        "smallest.list",
        "crossings.list",
    ] {
        lists.run::<Desk>(path);
    }
    lists.run_wrong::<Desk>("wrong.list");
}
