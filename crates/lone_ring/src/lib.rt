// Lone ring: what a ring gets by itself, on an empty node list.
//
// It stands on the divider, and the search for the smallest ring still refused stands on it: every choice of points that is
// tried is one call of `answer`. specs/Empty has why the lists of a trial decide nothing.

#![tactic(auto)]

ghost use Rattle.std.specs.Prelude.{◌≡◌, MatchOption};
ghost use Rattle.table.specs.Answers.{values};
ghost use Rattle.lone_ring.specs.Number.{number_of, number_of_fault, is_other};

use nodes::NodeNumber;
use table::{Answer, Refusal, Row};

// What a ring itself may be refused for, each with its number in the table: those of which a smallest ring is searched.
#[derive(Clone, Copy, PartialEq, Eq)]
pub enum Fault {
    UnderThree = 5,
    NotSimple = 6,
    NoArea = 7,
    Cell = 8,
}

impl Fault {
    // The one of the four that an answer tells, if it tells one.
    pub fn of(answer: Answer) -> Option<Fault>
        ensures { MatchOption result (is_other (values answer).code) (λ fault. number_of_fault fault ≡ (values answer).code) }
    {
        match answer {
            Answer::Refused { why, .. } => match why {
                Refusal::UnderThree => Some(Fault::UnderThree),
                Refusal::NotSimple => Some(Fault::NotSimple),
                Refusal::NoArea => Some(Fault::NoArea),
                _ => None,
            },
            Answer::Failed { .. } => Some(Fault::Cell),
            Answer::Divided { .. } => None,
        }
    }
}

impl From<Fault> for u64 {
    ghost from_gives = { λ fault n. n ≡ number_of_fault fault };

    fn from(fault: Fault) -> u64 {
        fault as u64
    }
}

// What a ring is answered on an empty node list. The lists have the full reserve of 12 points, and each trial gets new ones.
#[tactic(auto, unfolding(crate::specs::Number::number_of))]
pub fn answer(ring: &[i32], chain: &[i32], size: u32) -> Answer
    ensures { (values result).code ≡ number_of ring.now chain.now size }
{
    let mut nodes = [0.0f64; 110];
    let mut rims = [0u8; 55];
    let mut cells: [NodeNumber; 120] = [0; 120];
    divider::divide(ring, chain, size, &mut nodes, 0, &mut rims, &mut cells, 0)
}

// The number that a ring gets there, 0 where it is divided.
// Kept: a number, since any may be wanted of a choice (least), and a `Fault` is one of four.
pub fn number(ring: &[i32], chain: &[i32], size: u32) -> u64
    ensures { result ≡ number_of ring.now chain.now size }
{
    Row::from(answer(ring, chain, size)).code
}
