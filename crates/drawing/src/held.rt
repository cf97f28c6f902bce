// What a drawing holds between two bytes, in lists of a fixed length.

ghost use Rattle.std.specs.Prelude.{◌≡◌, ◌+◌, ◌≤◌, length};

use crate::State;

// The points of the open ring and of its chain, 60 places each, x and y in turn, and the bytes of a pair.
// Kept: no heap, so that the lists are arrays; the draft has how many points there are.
#[derive(Drop)]
pub struct Lists {
    pub ring: [i32; 120],
    pub chain: [i32; 120],
    pub out: [u8; 1024],
    pub ghost ring_long: { length ring ≡ 120 },
    pub ghost chain_long: { length chain ≡ 120 },
    pub ghost out_long: { length out ≡ 1024 },
}

// A drawing up to some byte of its text: the state, the bytes of the line so far, and the lists.
#[derive(Drop)]
pub struct Drawing {
    pub state: State,
    pub text: [u8; 80],
    pub lists: Lists,
    pub ghost text_long: { length text ≡ 80 },
    pub ghost short: { state.length ≤ 80 },
    pub ghost lines: { state.line + state.left ≤ 16777217 },
    pub ghost corners: { state.draft.corners ≤ 60 },
    pub ghost chain_points: { state.draft.chain_points ≤ 60 },
    pub ghost block: { state.draft.block ≤ 65536 },
}
