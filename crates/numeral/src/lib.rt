// Numeral: a decimal number in mm as a person writes it, and the count of 1/8192 mm nearest to it. It stands at the very front of
// the way of a ring, below the drawing that becomes job blocks.
//
// A number is a word: a minus or none, digits, and a point or none. It says exactly value / scale mm: 12.5 is 125 / 10. The
// coordinate is the nearest whole count of units, halves away from zero, worked out in integers of 64 bits.

#![tactic(auto)]

ghost use Rattle.std.specs.Prelude.{◌≡◌, ◌+◌, ◌^◌, ◌≤◌, ◌<◌, length, IfSome};
ghost use Rattle.numeral.specs.Numeral as Numeral;

// What a number says: its sign, the digits as one number, and ten to the number of decimals.
// Kept: every number has a sign, a zero too, so that an enum of the two signs would hold the same two fields in both cases.
#[derive(Clone, Copy, Debug, PartialEq, Eq)]
pub struct Said {
    pub minus: bool,
    pub value: u64,
    pub scale: u64,
}

// What was met in the first bytes of a word.
#[derive(Clone, Copy)]
pub struct Met {
    pub value: u64,
    pub scale: u64,
    pub digits: usize,
    pub points: usize,
}

impl Met {
    // One byte more. A digit after the point is a decimal.
    #[tactic(auto, unfolding(crate::specs::Numeral::more, crate::specs::Numeral::scaled))]
    fn more(self, b: u8) -> Met
        requires { Numeral.Small self }
        ensures { result ≡ Numeral.more self b }
    {
        match b {
            b'.' => Met {
                points: self.points + 1,
                ..self
            },
            b'0'..=b'9' => Met {
                value: self.value * 10 + u64::from(b - b'0'),
                scale: if self.points == 0 {
                    self.scale
                } else {
                    self.scale * 10
                },
                digits: self.digits + 1,
                ..self
            },
            _ => self,
        }
    }

    // Nothing but digits and a point in n bytes, one digit at least, and no more decimals than 14.
    #[tactic(auto, unfolding(crate::specs::Numeral::whole))]
    fn whole(self, n: usize) -> bool
        requires { self.digits + self.points ≤ 100 }
        ensures { result ≡ Numeral.whole self n }
    {
        self.digits != 0
            && self.points <= 1
            && self.scale <= 100000000000000
            && self.digits + self.points == n
    }
}

// What was met in a word's bytes behind its sign, also where they are no number.
#[tactic(auto, unfolding(crate::specs::Numeral::scan_to, crate::specs::Numeral::scanned), using(crate::proofs::Bounds::small))]
pub fn scan(body: &[u8]) -> Met
    requires { length body.now ≤ 19 }
    ensures { result ≡ Numeral.scanned body.now }
{
    let mut s = Met {
        value: 0,
        scale: 1,
        digits: 0,
        points: 0,
    };
    for &b in body {
        s = s.more(b);
    }
    s
}

// The number of a word's bytes behind its sign.
#[tactic(auto, unfolding(crate::specs::Numeral::behind), using(crate::proofs::Bounds::few_met, crate::proofs::Bounds::said_so, crate::proofs::Bounds::scaled_so))]
fn behind(minus: bool, body: &[u8]) -> Option<Said>
    ensures said { result ≡ Numeral.behind minus body.now }
    ensures scaled { IfSome result Numeral.Scaled }
{
    let n = body.len();
    if n > 19 {
        return None;
    }
    let s = scan(body);
    s.whole(n).then_some(Said {
        minus,
        value: s.value,
        scale: s.scale,
    })
}

// Reads a word.
#[tactic(auto, unfolding(crate::specs::Numeral::read), using(crate::proofs::Bounds::front_is))]
pub fn read(word: &[u8]) -> Option<Said>
    ensures said { result ≡ Numeral.read word.now }
    ensures scaled { IfSome result Numeral.Scaled }
{
    match word.strip_prefix(b"-") {
        Some(body) => behind(true, body),
        None => behind(false, word),
    }
}

// The sign, the digits and the scale of a word's bytes behind its sign, also where they are no number.
#[tactic(auto, unfolding(crate::specs::Numeral::spelled_behind, crate::specs::Numeral::scanned, crate::specs::Numeral::scan_to), using(crate::proofs::Bounds::scale_some))]
fn spelled_behind(minus: bool, body: &[u8]) -> Said
    ensures said { result ≡ Numeral.spelled_behind minus body.now }
    ensures some { 0 < result.scale }
{
    let nothing = body.len() > 19;
    let s = scan(if nothing { b"" } else { body });
    Said {
        minus: minus && !nothing,
        value: s.value,
        scale: s.scale,
    }
}

// Those of a word, which `read` tells of a number alone.
#[tactic(auto, unfolding(crate::specs::Numeral::spelled), using(crate::proofs::Bounds::front_is))]
pub fn spelled(word: &[u8]) -> Said
    ensures said { result ≡ Numeral.spelled word.now }
    ensures some { 0 < result.scale }
{
    match word.strip_prefix(b"-") {
        Some(body) => spelled_behind(true, body),
        None => spelled_behind(false, word),
    }
}

// The nearest count of units, halves up; none beyond 1,024 mm. In two steps, so that nothing is too large for 64 bits.
#[tactic(auto, unfolding(crate::specs::Numeral::within), using(crate::proofs::Bounds::far, crate::proofs::Bounds::two_steps))]
pub fn units(value: u64, scale: u64) -> Option<u64>
    requires { (0 < scale) × (scale ≤ 10 ^ 14) }
    ensures value { result ≡ Numeral.within value scale }
    ensures on_sheet { IfSome result (λ n. n ≤ 8388608) }
{
    let mm = value / scale;
    if mm > 1024 {
        return None;
    }
    let n = mm * 8192 + (value % scale * 16384 + scale) / (2 * scale);
    (n <= 8388608).then_some(n)
}

// The coordinate of so many units with its sign.
// Kept: std makes no number of a sign and a size.
#[tactic(auto, using(crate::proofs::Bounds::minus_is, crate::proofs::Bounds::plus_is))]
pub fn signed(minus: bool, n: u64) -> i32
    requires { n ≤ 8388608 }
    ensures { result ≡ Numeral.signed minus n }
{
    if minus { -(n as i32) } else { n as i32 }
}
