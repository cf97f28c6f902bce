// Least: the smallest choice of a ring's points that gets a number.
//
// It stands on choice and on lone_ring, and so on the divider: every choice that is tried is a run of the examination entry,
// over trial lists of its own. The entry of smallest stands on it. Choices are tried by rising count, then by rising number,
// and the first that gets the number is the answer, so that a fault of three points costs no more than the choices of three.

#![tactic(auto)]

ghost use Rattle.std.specs.Prelude.{◌≡◌, ◌^◌, ◌≤◌, ◌<◌, MatchOption};
ghost use Rattle.lone_ring.specs.Number.{points};
ghost use Rattle.choice.specs.Search as Rule;
ghost use Rattle.least.specs.Trial.{trial_of, choice_of};

// The choices among the points of a ring, of which one is wanted whose own ring gets a number.
// Kept: any number may be wanted; a `lone_ring::Fault`, which is one of four, would ask more of a caller.
#[derive(Clone, Copy)]
pub struct Search<'a> {
    pub ring: &'a [i32],
    pub chain: &'a [i32],
    pub size: u32,
    pub wanted: u64,
    ghost few: { points ring.now ≤ 12 },
}

impl Search<'_> {
    // How many points the ring has.
    fn points(&self) -> usize
        ensures { result ≡ points self.now.ring.now }
    {
        self.ring.len() / 2
    }

    // The number of a choice.
    fn trial(&self, choice: u32) -> u64
        ensures { result ≡ trial_of self.now.ring.now self.now.chain.now self.now.size (points self.now.ring.now) choice }
    {
        let p = choice::choose(self.ring, self.points(), choice);
        lone_ring::number(&p.points[..p.count], self.chain, self.size)
    }

    // Whether a choice has k points and gets the number.
    fn hits(&self, k: u32, choice: u32) -> bool
        ensures { result ≡ Rule.hits (trial_of self.now.ring.now self.now.chain.now self.now.size (points self.now.ring.now)) self.now.wanted k choice }
    {
        choice.count_ones() == k && self.trial(choice) == self.wanted
    }

    // The first choice of k points that gets the number.
    fn first_of_count(&self, k: u32) -> Option<u32>
        ensures { MatchOption result
            (Rule.first_of_count (trial_of self.now.ring.now self.now.chain.now self.now.size (points self.now.ring.now)) self.now.wanted
            (2 ^ points self.now.ring.now) k
            ≡ 2 ^ points self.now.ring.now)
            (λ c. (c < 2 ^ points self.now.ring.now)
            × (Rule.first_of_count (trial_of self.now.ring.now self.now.chain.now self.now.size (points self.now.ring.now)) self.now.wanted
            (2 ^ points self.now.ring.now) k ≡ c)) }
    {
        (0..choice::power(self.points())).find(|c| self.hits(k, *c))
    }

    // The first choice by rising count, of 3 points or more, then by rising number, that gets the number.
    pub fn least(&self) -> Option<u32>
        ensures { MatchOption result
            (choice_of self.now.ring.now self.now.chain.now self.now.size (points self.now.ring.now) self.now.wanted ≡ 2 ^ points self.now.ring.now)
            (λ c. (c < 2 ^ points self.now.ring.now)
            × (choice_of self.now.ring.now self.now.chain.now self.now.size (points self.now.ring.now) self.now.wanted ≡ c)) }
    {
        (3..self.points() as u32 + 1).find_map(|k| self.first_of_count(k))
    }
}
