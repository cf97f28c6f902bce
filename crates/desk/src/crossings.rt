// Two segments and how they meet, compared with a list that has the answer.

ghost use Rattle.std.specs.Prelude.{◌^◌, ◌≤◌, nat_abs};
ghost use Rattle.vector.specs.Size.{OnSheet};

use segments::{Crossing, Segment};
use std::io::Read;
use vector::GridPoint;
use words::Field;

// A coordinate; 0 where it is beyond the sheet.
fn coordinate(z: i32) -> i32
    ensures { nat_abs result ≤ 2 ^ 23 }
{
    if (-8388608..=8388608).contains(&z) {
        z
    } else {
        0
    }
}

fn point<R: Read>(input: &mut R) -> GridPoint
    ensures { OnSheet result }
{
    let x = coordinate(i32::read(input));
    let y = coordinate(i32::read(input));
    GridPoint { x, y }
}

fn segment<R: Read>(input: &mut R) -> Segment {
    let a = point(input);
    let b = point(input);
    Segment::new(a, b)
}

// An answer as the list has it.
// Kept: no `From` beside `Crossing`, since only this list has numbers for the three.
fn told(c: Crossing) -> u32 {
    match c {
        Crossing::Apart => 0,
        Crossing::Touching => 1,
        Crossing::Crossing => 2,
    }
}

pub fn crossing<R: Read>(input: &mut R) -> bool {
    let one = segment(input);
    let other = segment(input);
    told(one.meets(other)) == words::word(input)
}
