// Text: bytes, numbers in decimal, and forms filled with numbers, written on a page, a list that the caller lends. It stands
// below all that prints: the report, the cell sheet, the picture.
//
// specs/Text says what a text is and what writing it leaves in every place of the list; proofs/Pages has the laws of texts
// written one after the other. What writes stops at no failure: whoever calls shows that the text has room.

#![tactic(auto)]

ghost use Rattle.std.specs.Prelude.{◌≡◌, ℕ, List, [], ◌∷◌, ◌+◌, ◌≤◌, ◌<◌, length, drop, get_or};
ghost use Rattle.std.specs.Slice.Iter.{iter_rest};
ghost use Rattle.text.specs.Text.{decimal, stands_for, takes, filled, filled_by, Written};
ghost use Rattle.text.specs.Page.{Room, Wrote};

use std::slice::Iter;

// A list that is lent to be written on, and how many of its bytes are written.
// Kept: no `write!`, whose clauses speak of an `Ok` alone, so that no proof could say that a text with room is written.
#[derive(Drop)]
pub struct Page<'a> {
    pub out: &'a mut [u8],
    pub at: usize,
}

// The slots of a kind of form: what a byte of a form stands for where n is the next of the form's numbers, and how many it takes of
// those that are left.
pub trait Slots {
    ghost stands: { ℕ → ℕ → List ℕ };

    ghost takes: { ℕ → ℕ };

    fn put(page: &mut Page, b: u8, numbers: &mut Iter<'_, u64>)
        requires { Room page.old (stands b (get_or (iter_rest numbers.old) 0 0)) }
        ensures written { Wrote page.old (stands b (get_or (iter_rest numbers.old) 0 0)) page.new }
        ensures taken { iter_rest numbers.new ≡ drop (takes b) (iter_rest numbers.old) };
}

fn digit(n: u64) -> u8
    requires { n < 10 }
    ensures { result ≡ 48 + n }
{
    48 + n as u8
}

#[tactic(auto, using(crate::proofs::Writing::one_byte))]
pub fn put_byte(out: &mut [u8], at: usize, b: u8) -> usize
    requires { at < length out.old }
    ensures { Written out.old at (b ∷ []) result out.new }
{
    out[at] = b;
    at + 1
}

// The digits of n before the last, and the last, from a place on; answers the place after them.
// Kept: a list and a place, where the others take the page: a page that goes through calls of itself stays in memory, and with it
// the place of every byte that is written, which took three times as long.
pub fn put_decimal(out: &mut [u8], at: usize, n: u64) -> usize
    requires { at + length (decimal n) ≤ length out.old }
    ensures { Written out.old at (decimal n) result out.new }
{
    if n < 10 {
        return put_byte(out, at, digit(n));
    }
    let next = put_decimal(out, at, n / 10);
    put_byte(out, next, digit(n % 10))
}

impl Page<'_> {
    #[tactic(auto, using(crate::proofs::Writing::one_byte))]
    pub fn byte(&mut self, b: u8)
        requires { Room self.old (b ∷ []) }
        ensures { Wrote self.old (b ∷ []) self.new }
    {
        self.out[self.at] = b;
        self.at += 1;
    }

    pub fn decimal(&mut self, n: u64)
        requires { Room self.old (decimal n) }
        ensures { Wrote self.old (decimal n) self.new }
    {
        self.at = put_decimal(self.out, self.at, n);
    }

    // A form of any kind, with the numbers in its slots, in order.
    pub fn form<M: Slots>(&mut self, form: &[u8], numbers: &[u64])
        requires { Room self.old (filled_by M.stands M.takes form.now numbers.now) }
        ensures { Wrote self.old (filled_by M.stands M.takes form.now numbers.now) self.new }
    {
        let mut left = numbers.iter();
        for b in form {
            M::put(self, *b, &mut left);
        }
    }

    // A form whose one slot is '#', a number in decimal.
    pub fn filled(&mut self, form: &[u8], numbers: &[u64])
        requires { Room self.old (filled form.now numbers.now) }
        ensures { Wrote self.old (filled form.now numbers.now) self.new }
    {
        self.form::<NumberSlots>(form, numbers);
    }
}

// The next of a form's numbers, 0 past them.
pub fn next_number(numbers: &mut Iter<'_, u64>) -> u64
    ensures next { result ≡ get_or (iter_rest numbers.old) 0 0 }
    ensures taken { iter_rest numbers.new ≡ drop 1 (iter_rest numbers.old) }
{
    numbers.next().copied().unwrap_or(0)
}

// The forms with one slot.
struct NumberSlots;

impl Slots for NumberSlots {
    ghost stands = { stands_for };

    ghost takes = { takes };

    #[tactic(auto, unfolding(crate::specs::Text::stands_for, crate::specs::Text::takes))]
    fn put(page: &mut Page, b: u8, numbers: &mut Iter<'_, u64>) {
        if b == b'#' {
            return page.decimal(next_number(numbers));
        }
        page.byte(b);
    }
}
