// State: what a run keeps from one block to the next, and the tests of whether it goes on. It stands above blocks and below
// job, whose definitions go by it, and has nothing of the divider.

#![tactic(auto)]

ghost use Rattle.std.specs.Prelude.{◌≡◌, false, true, not, ◌&&◌, ◌%◌, length, eqb};

use blocks::Kind;

// The state between two blocks: the number of the next one; the count and the sheet size of the ring that waits for its chain,
// where that number is odd; the nodes listed; and whether the run has ended. The ring's points stand beside it in a list that
// the caller lends, 60 places, x and y in turn.
// Kept: ended is a flag: the cases of an enum would carry the same four values, since the end changes none of them and they are
// read after it too. No Option of the ring that waits: the picture reads its count once it is divided.
#[derive(Clone, Copy, Default)]
pub struct State {
    pub block: u32,
    pub count: usize,
    pub size: u32,
    pub used: usize,
    pub ended: bool,
}

impl State {
    // Before the first block.
    pub fn new() -> State
        ensures { result ≡ record { block = 0; count = 0; size = 0; used = 0; ended = false } }
    {
        State::default()
    }

    // The same, with the run at its end.
    pub fn closed(self) -> State
        ensures { result ≡ record { block = self.block; count = self.count; size = self.size; used = self.used; ended = true } }
    {
        State {
            ended: true,
            ..self
        }
    }
}

// Whether there is a block to read: until the run has ended, and no longer.
pub fn goes_on(s: State) -> bool
    ensures { result ≡ not s.ended }
{
    !s.ended
}

// Whether the input has ended where a ring block would begin. After a ring block that is part of a block.
pub fn at_end(block: u32, bytes: &[u8]) -> bool
    ensures { result ≡ (eqb (block % 2) 0 && eqb (length bytes.now) 0) }
{
    match Kind::of(block) {
        Kind::Ring => bytes.is_empty(),
        Kind::Chain => false,
    }
}
