// Wear: the cuts of the last 32 accepted rings, which wheel wear follows.
//
// It stands beside the divider, on no crate of it: a call's answer, its number and its cuts, goes in with the record, and the
// record comes back. specs/Wear says what one answer does, specs/Bytes how a record stands in 34 lent bytes, specs/Answers what
// holds after every list of answers; crate worn ties these to divider calls.

#![tactic(auto)]

ghost use Rattle.std.specs.Prelude.{◌≡◌, ◌≤◌, ◌<◌, length, nat_lt, sum};
ghost use Rattle.std.specs.List.{list_any};
ghost use Rattle.wear.specs.Wear as Rule;
ghost use Rattle.wear.specs.Bytes as Bytes;

// The cuts of up to 32 rings; how many it holds; and the place of the next, which is the oldest's where it holds 32.
// Kept: an array with its count, as the 34 bytes of C have them.
#[derive(Clone, Copy)]
pub struct Record {
    pub cuts: [u8; 32],
    pub rings: u8,
    pub next: u8,
}

// A record in 34 bytes.
impl From<&[u8; 34]> for Record {
    ghost from_gives = { λ bytes r. r ≡ Bytes.record_in bytes.now };

    fn from(bytes: &[u8; 34]) -> Record {
        let mut cuts = [0; 32];
        cuts.copy_from_slice(&bytes[..32]);
        Record {
            cuts,
            rings: bytes[32],
            next: bytes[33],
        }
    }
}

impl Record {
    // The same, over 34 lent bytes.
    // Kept: no `From`, which would fill an array of zeros, for its caller to copy over the lent bytes.
    fn write(&self, bytes: &mut [u8; 34])
        ensures { bytes.new ≡ Bytes.bytes_of self.now }
    {
        bytes[..32].copy_from_slice(&self.cuts);
        bytes[32] = self.rings;
        bytes[33] = self.next;
    }
}

// What a record reports of the rings that it holds: the total of their cuts, the highest, and how many they are.
#[derive(Clone, Copy)]
pub struct Values {
    pub total: u64,
    pub highest: u64,
    pub rings: u64,
}

// A record or an answer that is refused, each with 20.
#[derive(Clone, Copy)]
pub struct Refused;

// What a call over lent bytes returns: 0 and the three values, or 20 and zeros.
// Kept: the number is a u64 beside the values, since C reads it.
#[repr(C)]
#[derive(Clone, Copy)]
pub struct Wear {
    pub code: u64,
    pub total: u64,
    pub highest: u64,
    pub rings: u64,
}

impl From<Result<Values, Refused>> for Wear {
    ghost from_gives = { λ answer w. w ≡ Rule.wear_of answer };

    fn from(answer: Result<Values, Refused>) -> Wear {
        match answer {
            Ok(v) => Wear {
                code: 0,
                total: v.total,
                highest: v.highest,
                rings: v.rings,
            },
            Err(Refused) => Wear {
                code: 20,
                total: 0,
                highest: 0,
                rings: 0,
            },
        }
    }
}

// A ring that has over 32 cuts.
fn any_over(cuts: &[u8]) -> bool
    ensures { result ≡ list_any (λ c. nat_lt 32 c) cuts.now }
{
    cuts.iter().any(|c| *c > 32)
}

#[tactic(auto, unfolding(crate::specs::Wear::misplaced))]
fn misplaced(rings: u8, next: u8) -> bool
    ensures { result ≡ Rule.misplaced rings next }
{
    if rings < 32 { next != rings } else { 31 < next }
}

// 20, of a record.
#[tactic(auto, unfolding(crate::specs::Wear::invalid))]
fn invalid(r: &Record) -> bool
    ensures { result ≡ Rule.invalid r.now }
{
    32 < r.rings || misplaced(r.rings, r.next) || any_over(&r.cuts[..usize::from(r.rings)])
}

fn total(cuts: &[u8]) -> u64
    requires { length cuts.now ≤ 32 }
    ensures { result ≡ sum cuts.now }
{
    cuts.iter().map(|c| u64::from(*c)).sum()
}

fn highest(cuts: &[u8]) -> u64
    ensures { result ≡ Rule.highest cuts.now }
{
    cuts.iter().fold(0, |most, c| most.max(u64::from(*c)))
}

// The three values of a record that holds no more than 32 rings.
fn reported(r: &Record) -> Values
    requires { r.now.rings ≤ 32 }
    ensures { result ≡ Rule.values_in r.now }
{
    let held = &r.cuts[..usize::from(r.rings)];
    Values {
        total: total(held),
        highest: highest(held),
        rings: u64::from(r.rings),
    }
}

fn grown(n: u8) -> u8
    ensures { (result ≡ Rule.grown n) × (result ≤ 32) }
{
    n.min(31) + 1
}

// One ring more.
#[tactic(auto, unfolding(crate::specs::Wear::stored))]
fn stored(r: &Record, cuts: u8) -> Record
    requires { r.now.next < 32 }
    ensures { (result ≡ Rule.stored r.now cuts) × (result.rings ≤ 32) }
{
    let mut all = r.cuts;
    all[usize::from(r.next)] = cuts;
    Record {
        cuts: all,
        rings: grown(r.rings),
        next: (r.next + 1) % 32,
    }
}

// A divider call's answer, its number and its cuts, into the record, which stays as it came where the answer is refused.
// Kept: the number as C hands it over, any of which is taken, and 0 alone is told from the others. With an Option of the cuts each
// caller would take the number apart.
#[tactic(auto, unfolding(crate::specs::Wear::added, crate::specs::Wear::reported, crate::specs::Wear::refused))]
pub fn add(r: &mut Record, code: u64, cuts: u64) -> Result<Values, Refused>
    ensures { (result ≡ (Rule.added r.old code cuts).values) × (r.new ≡ (Rule.added r.old code cuts).kept) }
{
    if invalid(r) {
        return Err(Refused);
    }
    if code != 0 {
        return Ok(reported(r));
    }
    if 32 < cuts {
        return Err(Refused);
    }
    *r = stored(r, cuts as u8);
    Ok(reported(r))
}

// The same over a record in 34 lent bytes; a list of another length is 20. Nothing is asked of a caller.
// Kept: the number as C hands it over, as in `add`.
pub fn wear_add(record: &mut [u8], code: u64, cuts: u64) -> Wear
    ensures { (result ≡ Bytes.returned «record».old code cuts) × («record».new ≡ Bytes.left «record».old code cuts) }
{
    let Some(bytes) = record.as_mut_array::<34>() else {
        return Wear::from(Err(Refused));
    };
    let mut r = Record::from(&*bytes);
    let answer = add(&mut r, code, cuts);
    r.write(bytes);
    Wear::from(answer)
}
