// Drawing: a drawing's text, byte by byte, to the job blocks that the divider takes. It stands above lines and writer, at the
// front of the way of a ring, and below the program `draw` that reads and writes.
//
// specs/Parsing says what comes out as one definition, `drawn`, byte by byte (`fed`); specs/Drawing has the steps of a line. A
// ring is complete where the next one begins or the text ends; only then is its pair of blocks written. A `Drawing` holds the
// points of the open ring and of its chain, the bytes of the line and those of the pair.

#![tactic(auto)]

ghost use Rattle.std.specs.Prelude.{◌≡◌, ◌+◌, ◌*◌, ◌≤◌, ◌<◌, length};
ghost use Rattle.drawing.specs.Drawing as Draws;
ghost use Rattle.drawing.specs.Parsing as Parsing;

mod held;

pub use held::{Drawing, Lists};
use lines::{Fault, Line};
use writer::Refusal;

// What is wrong: with the ring as a whole, which the writer refuses; with a line by itself; no ring is open; more points than 60
// in a ring, in a chain; a second chain; a line or a text that is too long.
#[derive(Clone, Copy, Debug, PartialEq, Eq)]
pub enum Wrong {
    Refused(Refusal),
    Misread(Fault),
    NoRing,
    RingFull,
    ChainFull,
    SecondChain,
    LongLine,
    LongText,
    // Another number, which no step says: a state that a caller makes may hold any.
    Other(u32),
}

// The number that is said of it.
impl From<Wrong> for u32 {
    ghost from_gives = { λ wrong n. n ≡ Draws.number_of wrong };

    fn from(wrong: Wrong) -> u32 {
        match wrong {
            Wrong::Refused(refusal) => u64::from(refusal) as u32,
            Wrong::Misread(fault) => u32::from(fault),
            Wrong::NoRing => 24,
            Wrong::RingFull => 25,
            Wrong::ChainFull => 26,
            Wrong::SecondChain => 27,
            Wrong::LongLine => 28,
            Wrong::LongText => 29,
            Wrong::Other(number) => number,
        }
    }
}

impl From<Refusal> for Wrong {
    ghost use Rattle.drawing.specs.declared.Wrong.TheVariants.{Refused};

    ghost from_gives = { λ refusal wrong. wrong ≡ Refused refusal };

    fn from(refusal: Refusal) -> Wrong {
        Wrong::Refused(refusal)
    }
}

impl From<Fault> for Wrong {
    ghost use Rattle.drawing.specs.declared.Wrong.TheVariants.{Misread};

    ghost from_gives = { λ fault wrong. wrong ≡ Misread fault };

    fn from(fault: Fault) -> Wrong {
        Wrong::Misread(fault)
    }
}

// The bytes that a line may have, and a text.
pub const MOST_LINE: usize = 80;

pub const MOST_TEXT: u32 = 16777216;

// Where the points of a line go: no ring is open, or they are the ring's, or its chain's.
#[derive(Clone, Copy, Debug, PartialEq, Eq)]
pub enum Phase {
    Closed,
    Ring,
    Chain,
    // Another number than 0 to 2, which no step makes: a state that a caller makes may hold any. A ring is open, as at `Ring`.
    Other(u32),
}

// Its number: 0, 1 and 2, or that other one.
impl From<Phase> for u32 {
    ghost from_gives = { λ phase n. n ≡ Draws.number_of_phase phase };

    fn from(phase: Phase) -> u32 {
        match phase {
            Phase::Closed => 0,
            Phase::Ring => 1,
            Phase::Chain => 2,
            Phase::Other(number) => number,
        }
    }
}

// The phase of a number.
impl From<u32> for Phase {
    ghost from_gives = { λ n phase. phase ≡ Draws.phase_of n };

    fn from(number: u32) -> Phase {
        match number {
            0 => Phase::Closed,
            1 => Phase::Ring,
            2 => Phase::Chain,
            _ => Phase::Other(number),
        }
    }
}

// The ring that is open: the line that it begins at; its sheet size and how many points there are of it and of its chain; the
// number of its block; what is wrong, if something is; and whether the last step wrote a pair.
// Kept: a step from a drawing with something wrong may write a pair too, so that one enum for `wrong` and `wrote` would have four
// cases, two of which hold what is wrong.
#[derive(Clone, Copy)]
pub struct Draft {
    pub began: u32,
    pub phase: Phase,
    pub size: u32,
    pub corners: usize,
    pub chain_points: usize,
    pub block: u32,
    pub wrong: Option<Wrong>,
    pub wrote: bool,
}

impl Draft {
    // What is wrong is said; nothing is written.
    fn fails(self, wrong: Wrong) -> Draft
        ensures { result ≡ Draws.failed self wrong }
    {
        Draft {
            wrong: Some(wrong),
            wrote: false,
            ..self
        }
    }

    // The same, and nothing written.
    fn quiet(self) -> Draft
        ensures { result ≡ Draws.still self }
    {
        Draft {
            wrote: false,
            ..self
        }
    }
}

// Puts a point behind `count` others, if there is room for one more, and says how many there are then.
fn put_point(places: &mut [i32], count: usize, x: i32, y: i32) -> Option<usize>
    requires { (count ≤ 60) × (length places.old ≡ 120) }
    ensures { Draws.Puts count x y places.old result places.new }
{
    if count == 60 {
        return None;
    }
    let k = count * 2;
    places[k] = x;
    places[k + 1] = y;
    Some(count + 1)
}

// Kept: as ghost fields of `Draft`, what `ValidDraft` says would forbid `..o`, by which a step names what it changes and no more.
impl Lists {
    // Writes the pair of the open ring, where one is open.
    #[tactic(auto, using(crate::proofs::Closing::closes_none, crate::proofs::Closing::closes_refused))]
    fn close(&mut self, o: Draft) -> Draft
        requires { Draws.ValidDraft o }
        ensures does { Draws.Does Draws.closes o self.old result self.new }
        ensures points { (self.new.ring ≡ self.old.ring) × (self.new.chain ≡ self.old.chain) }
    {
        if let Phase::Closed = o.phase {
            return o.quiet();
        }
        let ring = &self.ring[..o.corners * 2];
        let chain = &self.chain[..o.chain_points * 2];
        match writer::save(ring, chain, o.size, o.block, &mut self.out) {
            Err(refusal) => o.fails(refusal.into()),
            Ok(()) => Draft {
                phase: Phase::Closed,
                corners: 0,
                chain_points: 0,
                block: o.block + 2,
                wrote: true,
                ..o
            },
        }
    }

    // A ring begins: the one before it is complete.
    #[tactic(auto, using(crate::proofs::Closing::begins_not, crate::proofs::Closing::begins_so))]
    fn begin(&mut self, o: Draft, line: u32, size: u32) -> Draft
        requires { Draws.ValidDraft o }
        ensures { Draws.Does (Draws.begins line size) o self.old result self.new }
    {
        let c = self.close(o);
        match c.wrong {
            Some(_) => c,
            None => Draft {
                began: line,
                phase: Phase::Ring,
                size,
                corners: 0,
                chain_points: 0,
                ..c
            },
        }
    }

    // A point of the open ring, or of its chain.
    fn point(&mut self, o: Draft, x: i32, y: i32) -> Draft
        requires { Draws.ValidDraft o }
        ensures { Draws.Does (Draws.points x y) o self.old result self.new }
    {
        match o.phase {
            Phase::Closed => o.fails(Wrong::NoRing),
            Phase::Ring | Phase::Other(_) => match put_point(&mut self.ring, o.corners, x, y) {
                None => o.fails(Wrong::RingFull),
                Some(corners) => Draft {
                    corners,
                    wrote: false,
                    ..o
                },
            },
            Phase::Chain => match put_point(&mut self.chain, o.chain_points, x, y) {
                None => o.fails(Wrong::ChainFull),
                Some(chain_points) => Draft {
                    chain_points,
                    wrote: false,
                    ..o
                },
            },
        }
    }

    // What was heard of line `number`.
    fn take_heard(&mut self, o: Draft, number: u32, heard: Result<Line, Fault>) -> Draft
        requires { Draws.ValidDraft o }
        ensures { Draws.Does (Draws.takes number heard) o self.old result self.new }
    {
        match heard {
            Err(fault) => o.fails(fault.into()),
            Ok(Line::Nothing) => o.quiet(),
            Ok(Line::Ring { size }) => self.begin(o, number, size),
            Ok(Line::Chain) => chain_line(o),
            Ok(Line::Point { x, y }) => self.point(o, x, y),
        }
    }
}

// The open ring's chain begins.
fn chain_line(o: Draft) -> Draft
    ensures { result ≡ Draws.chain_of o }
{
    match o.phase {
        Phase::Closed => o.fails(Wrong::NoRing),
        Phase::Chain => o.fails(Wrong::SecondChain),
        Phase::Ring | Phase::Other(_) => Draft {
            phase: Phase::Chain,
            wrote: false,
            ..o
        },
    }
}

// The state between two bytes: how many may still come, the number of the line from 1, its bytes so far, whether its comment
// has begun, and the open ring.
// Kept: a flag, since a comment begins after any number of bytes, which stay those of the line: an enum in its place would hold
// `length` in both of its cases.
#[derive(Clone, Copy)]
pub struct State {
    pub left: u32,
    pub line: u32,
    pub length: usize,
    pub comment: bool,
    pub draft: Draft,
}

impl State {
    // Before the first byte.
    pub fn new() -> State
        ensures { result ≡ Parsing.begun }
    {
        let draft = Draft {
            began: 0,
            phase: Phase::Closed,
            size: 0,
            corners: 0,
            chain_points: 0,
            block: 0,
            wrong: None,
            wrote: false,
        };
        State {
            left: MOST_TEXT,
            line: 1,
            length: 0,
            comment: false,
            draft,
        }
    }

    fn goes(self, length: usize, comment: bool) -> State
        requires { 0 < self.left }
        ensures { result ≡ Parsing.gone_on self length comment }
    {
        State {
            left: self.left - 1,
            length,
            comment,
            draft: self.draft.quiet(),
            ..self
        }
    }

    fn stops(self, wrong: Wrong) -> State
        ensures { result ≡ Parsing.stopped self wrong }
    {
        State {
            draft: self.draft.fails(wrong),
            ..self
        }
    }
}

// The number of the line after one that said o.
fn next_line(line: u32, o: Draft) -> u32
    requires { line < 16777217 }
    ensures { result ≡ Parsing.line_after line o }
{
    match o.wrong {
        None => line + 1,
        Some(_) => line,
    }
}

impl Drawing {
    // Before the first byte.
    pub fn new() -> Drawing
        ensures { Parsing.parser_of result ≡ Parsing.fresh_parser }
    {
        Drawing {
            state: State::new(),
            text: [0; 80],
            lists: Lists {
                ring: [0; 120],
                chain: [0; 120],
                out: [0; 1024],
            },
        }
    }

    // The end of a line.
    #[tactic(auto, using(crate::proofs::Feeding::line_ends_so))]
    fn end_line(&mut self)
        requires { 0 < self.old.state.left }
        ensures { Parsing.Moves Parsing.line_ends self.old self.new }
    {
        let s = self.state;
        let heard = lines::hear(&self.text[..s.length]);
        let draft = self.lists.take_heard(s.draft, s.line, heard);
        self.state = State {
            left: s.left - 1,
            line: next_line(s.line, draft),
            length: 0,
            comment: false,
            draft,
        };
    }

    // One byte of the text.
    #[tactic(auto, using(crate::proofs::Feeding::fed_too_long, crate::proofs::Feeding::fed_line, crate::proofs::Feeding::fed_comment, crate::proofs::Feeding::fed_full, crate::proofs::Feeding::fed_byte))]
    pub fn feed(&mut self, b: u8)
        ensures { Parsing.Moves (Parsing.fed b) self.old self.new }
    {
        let s = self.state;
        if s.left == 0 {
            self.state = s.stops(Wrong::LongText);
        } else if b == b'\n' {
            self.end_line();
        } else if s.comment || b == b'#' {
            self.state = s.goes(s.length, true);
        } else if s.length == MOST_LINE {
            self.state = s.stops(Wrong::LongLine);
        } else {
            self.text[s.length] = b;
            self.state = s.goes(s.length + 1, false);
        }
    }

    // The end of the text, after its last line.
    #[tactic(auto, using(crate::proofs::Feeding::text_ends))]
    pub fn finish(&mut self)
        ensures moves { Parsing.Moves Parsing.ends self.old self.new }
        ensures text { self.new.text ≡ self.old.text }
        ensures points { (self.new.lists.ring ≡ self.old.lists.ring) × (self.new.lists.chain ≡ self.old.lists.chain) }
    {
        let draft = self.lists.close(self.state.draft);
        self.state = State {
            draft,
            ..self.state
        };
    }
}
