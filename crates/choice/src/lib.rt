// Choice: a choice of a ring's points, as a number in which point i counts 2 to the power i.
//
// It stands below least, the search for the smallest choice that gets a number, and has nothing of the divider: the search
// is defined here, in specs/Search, for any trial of a choice, and proofs/Searching proves that it finds the least.

#![tactic(auto)]

ghost use Rattle.std.specs.Prelude.{◌≡◌, ◌-◌, ◌*◌, ◌^◌, ◌≤◌, length, take, drop, replicate, pos};
ghost use Rattle.choice.specs.Choice.{chosen};

// The chosen points, x and y in turn, in the first `count` places. Kept: there is no heap, and so no list of its own length.
#[derive(Clone, Copy)]
pub struct ChosenPoints {
    pub points: [i32; 24],
    pub count: usize,
}

// Only the chosen points are written, one after the other, so that every place after them is 0.
pub fn choose(ring: &[i32], r: usize, choice: u32) -> ChosenPoints
    requires { (r ≤ 12) × (r * 2 ≤ length ring.now) }
    ensures { (take result.count result.points ≡ chosen ring.now choice r) × (result.count ≤ r * 2) × (length result.points ≡ 24)
        × (drop result.count result.points ≡ replicate (24 - result.count) (pos 0)) }
{
    let mut points = [0i32; 24];
    let mut count: usize = 0;
    let mut rest = choice;
    let (pairs, _) = ring.as_chunks::<2>();
    for p in &pairs[..r] {
        if rest % 2 == 1 {
            points[count..count + 2].copy_from_slice(p);
            count += 2;
        }
        rest /= 2;
    }
    ChosenPoints { points, count }
}

// How many choices of r points there are: 2 to the power r.
pub fn power(r: usize) -> u32
    requires { r ≤ 12 }
    ensures { result ≡ 2 ^ r }
{
    1 << r
}
