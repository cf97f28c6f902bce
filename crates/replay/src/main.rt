// Replay: runs the fixed lists of data/, calls and blocks with what the original Rust answers, and compares every returned
// value, every node bit, every rim mark, every cell place, every byte read and every byte written. The calls that are the
// examination's by a chain it runs over cell records too. docs/REPLAY.md has the form of the lists.

#![tactic(auto)]

mod called;
mod kept;

use called::{Entry, Set};
use kept::Kept;
use std::io::{Read, Write};
use std::rt::Files;
use words::{Lists, Records, Tally, UnknownKind};

// A block read.
fn replay_block<R: Read>(input: &mut R) -> bool {
    let number = words::word(input);
    let n = words::count(input);
    let mut bytes = [0u8; 1024];
    words::read_list(input, &mut bytes, n);
    if 1024 < n {
        return false;
    }
    expected::same_block(input, number, blocks::read_block(&bytes[..n], number))
}

// A ring and its chain saved.
fn replay_pair<R: Read>(input: &mut R) -> bool {
    let size = words::word(input);
    let number = words::word(input);
    let room = words::count_to(input, 1536);
    let r = words::count_to(input, 520);
    let c = words::count_to(input, 520);
    let mut ring = [0i32; 520];
    let mut chain = [0i32; 520];
    words::read_list(input, &mut ring, r);
    words::read_list(input, &mut chain, c);
    let mut out = [0u8; 1536];
    words::fill(&mut out);
    let code = exports::blocks_write(&ring[..r], &chain[..c], size, number, &mut out[..room]);
    expected::same_pair(input, code, &out)
}

// A record of a list, by the number that its first word has.
#[derive(Clone, Copy)]
pub enum Kind {
    List,
    Call,
    Block,
    Pair,
    Marked,
    WithSet,
    Practice,
}

impl TryFrom<u32> for Kind {
    type Error = UnknownKind;

    fn try_from(number: u32) -> Result<Kind, UnknownKind> {
        match number {
            1 => Ok(Kind::List),
            2 => Ok(Kind::Call),
            3 => Ok(Kind::Block),
            4 => Ok(Kind::Pair),
            5 => Ok(Kind::Marked),
            7 => Ok(Kind::WithSet),
            8 => Ok(Kind::Practice),
            _ => Err(UnknownKind),
        }
    }
}

// What stands behind a set of limits, or behind an 8: a call by a chain or with given marks.
fn replay_entry<R: Read>(kept: &mut Kept, input: &mut R, entry: Entry) -> bool {
    match Kind::try_from(words::word(input)) {
        Ok(Kind::Marked) => kept.by_marks(input, entry),
        _ => kept.by_chain(input, entry),
    }
}

impl Records for Kept {
    type Kind = Kind;

    const UNOPENED: Tally = Tally { ran: 0, differ: 1 };

    const HOW: &'static str = "";

    fn new() -> Kept {
        Kept::blank()
    }

    fn run<R: Read>(&mut self, input: &mut R, kind: Kind) -> Option<bool> {
        Some(match kind {
            Kind::List => {
                self.read(input);
                return None;
            }
            Kind::Call => self.by_chain(input, Entry::Examination),
            Kind::Block => replay_block(input),
            Kind::Pair => replay_pair(input),
            Kind::Marked => self.by_marks(input, Entry::Examination),
            Kind::WithSet => {
                let entry = Entry::WithSet(Set::read(input));
                replay_entry(self, input, entry)
            }
            Kind::Practice => replay_entry(self, input, Entry::Practice),
        })
    }
}

// The same lists, of which the calls that the entry over cell records can make are made by it and compared. All others are
// run for the nodes and marks that they leave.
#[derive(Drop)]
struct Recorded {
    kept: Kept,
}

impl Records for Recorded {
    type Kind = Kind;

    const UNOPENED: Tally = Tally { ran: 0, differ: 1 };

    const HOW: &'static str = " over cell records";

    fn new() -> Recorded {
        Recorded {
            kept: Kept::blank(),
        }
    }

    fn run<R: Read>(&mut self, input: &mut R, kind: Kind) -> Option<bool> {
        if let Kind::Call = kind {
            return Some(self.kept.by_chain(input, Entry::OverRecords));
        }
        self.kept.run(input, kind);
        None
    }
}

// First the lists of the base: calls, blocks read and blocks written; then those of the other entries, and of rim marks.
const LISTS: [&str; 8] = [
    "rings.list",
    "calls.list",
    "blocks.list",
    "pairs.list",
    "marks.list",
    "sets.list",
    "practice.list",
    "rims.list",
];

// Those with calls for the entry over cell records.
const RECORDED: [&str; 4] = ["rings.list", "calls.list", "marks.list", "rims.list"];

// Runs lists, and those rows that are wrong on purpose.
fn run_lists<P: Records, F: Files, W: Write, E: Write>(
    lists: &mut Lists<'_, F, W, E>,
    paths: &[&str],
) {
    let mut all = Tally::default();
    for path in paths {
        all = all + lists.run::<P>(path);
    }
    all.print(lists.output, "total", P::HOW);
    lists.run_wrong::<P>("wrong.list");
}

fn main(rt: HostRuntime) {
    let mut lists = Lists {
        files: &rt,
        output: &mut rt.stdout(),
        errors: &mut rt.stderr(),
    };
    run_lists::<Kept, _, _, _>(&mut lists, &LISTS);
    run_lists::<Recorded, _, _, _>(&mut lists, &RECORDED);
}
