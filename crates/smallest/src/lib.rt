// Smallest: of a ring that is refused with 5 to 8, the fewest of its points that are still refused so.
//
// It stands on least, which searches, and on lone_ring for the ring's own number. specs/Smallest has what is answered and what
// holds of it.

#![tactic(auto)]

ghost use Rattle.std.specs.Prelude.{◌≡◌, Ok, Err, MatchResult};
ghost use Rattle.table.specs.Answers.{values};
ghost use Rattle.lone_ring.specs.Number.{number_of_fault};
ghost use Rattle.smallest.specs.Smallest as Rule;

use least::Search;
use lone_ring::Fault;
use table::Answer;

// Why no smallest ring is given, each with its number: the ring's own 1 and 2, over 12 points, and an own number that is not
// one of 5 to 8.
// Kept: no `table::Refusal`, which has no 18 and 19, and nine cases that never come here, so that a match would have arms that
// cannot be.
#[derive(Clone, Copy, PartialEq, Eq)]
pub enum Refusal {
    Counts = 1,
    Units = 2,
    Points = 18,
    Other = 19,
}

impl From<Refusal> for u64 {
    ghost from_gives = { λ r n. n ≡ Rule.number_of_refusal r };

    fn from(r: Refusal) -> u64 {
        r as u64
    }
}

// The fault that both rings have, and the choice.
#[derive(Clone, Copy)]
pub struct Found {
    pub refusal: Fault,
    pub choice: u32,
}

// 0 with the number that both rings get, the choice and how many points it has; or 1, 2, 18, 19 and zeros.
// Kept: each is a u64, both numbers too, since C reads them.
#[repr(C)]
#[derive(Clone, Copy)]
pub struct Smallest {
    pub code: u64,
    pub refusal: u64,
    pub choice: u64,
    pub points: u64,
}

impl From<Result<Found, Refusal>> for Smallest {
    ghost from_gives = { λ answer s. s ≡ Rule.row_of answer };

    fn from(answer: Result<Found, Refusal>) -> Smallest {
        match answer {
            Ok(found) => Smallest {
                code: 0,
                refusal: u64::from(found.refusal),
                choice: u64::from(found.choice),
                points: u64::from(found.choice.count_ones()),
            },
            Err(why) => Smallest {
                code: u64::from(why),
                refusal: 0,
                choice: 0,
                points: 0,
            },
        }
    }
}

// The tests of a ring by its own answer and how many points it has, in order.
#[tactic(auto, unfolding(crate::specs::Smallest::tested))]
fn tested(own: Answer, points: usize) -> Result<Fault, Refusal>
    ensures { MatchResult result
        (λ fault. (Rule.tested (values own).code points ≡ Ok tt) × (number_of_fault fault ≡ (values own).code))
        (λ why. Rule.tested (values own).code points ≡ Err why) }
{
    match own {
        Answer::Refused {
            why: table::Refusal::Counts,
            ..
        } => Err(Refusal::Counts),
        Answer::Refused {
            why: table::Refusal::Units,
            ..
        } => Err(Refusal::Units),
        _ if 12 < points => Err(Refusal::Points),
        _ => Fault::of(own).ok_or(Refusal::Other),
    }
}

// The smallest ring still refused. Where the ring has one of the four faults, the choice of all its points has it too.
fn search(ring: &[i32], chain: &[i32], size: u32) -> Result<Found, Refusal>
    ensures { Rule.row_of result ≡ Rule.smallest_refused ring.now chain.now size }
{
    let own = lone_ring::answer(ring, chain, size);
    let refusal = tested(own, ring.len() / 2)?;
    let all = Search {
        ring,
        chain,
        size,
        wanted: u64::from(refusal),
    };
    let Some(choice) = all.least() else {
        unreachable!();
    };
    Ok(Found { refusal, choice })
}

// The same as C is answered. Nothing is asked of a caller.
pub fn smallest_refused(ring: &[i32], chain: &[i32], size: u32) -> Smallest
    ensures { result ≡ Rule.smallest_refused ring.now chain.now size }
{
    Smallest::from(search(ring, chain, size))
}
