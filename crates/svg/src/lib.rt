// Svg: the text of an element, a form with numbers and places put in. It stands above text and decimals, and below scene and
// frame.
//
// A place is a coordinate as a whole number of ten-thousandths of a mm, ORIGIN that of 0 mm: those of a listed node are what
// the cell sheet shows of it, and a ring's points are rounded as the sheet rounds.

#![tactic(auto)]

ghost use Rattle.std.specs.Prelude.{◌≡◌, ◌≤◌, get_or};
ghost use Rattle.std.specs.Float.{nan};
ghost use Rattle.text.specs.Page.{Room, Wrote};
ghost use Rattle.svg.specs.Place as Place;
ghost use Rattle.svg.specs.Form as Form;

use decimals::Decimal;
use std::slice::Iter;
use text::{Page, Slots};

// The place of 0 mm.
pub const ORIGIN: u64 = 20000000;

// The place of a coordinate that a node has.
pub fn place_of(x: f64) -> u64
    ensures { result ≡ Place.place_of x }
{
    if !nodes::is_on_sheet(x) {
        return ORIGIN;
    }
    let d = Decimal::of(x);
    if d.minus {
        ORIGIN - d.parts
    } else {
        ORIGIN + d.parts
    }
}

// The place of number k of a node list, the origin where there is none.
#[tactic(auto, using(crate::proofs::Places::past_node))]
pub fn node_place(nodes: &[f64], k: usize) -> u64
    ensures { result ≡ Place.place_of (get_or nodes.now k nan) }
{
    nodes.get(k).map_or(ORIGIN, |x| place_of(*x))
}

// So many units in ten-thousandths of a mm, those of 1,024 mm at most.
#[tactic(auto, using(crate::proofs::Places::few_rounded), unfolding(crate::specs::Place::rounded))]
fn rounded(m: u32) -> u64
    ensures { (result ≡ Place.rounded m) × (result ≤ 10240001) }
{
    decimals::half_even(u64::from(m.min(8388608)) * 625, 9)
}

#[tactic(auto, unfolding(crate::specs::Place::unit_place))]
fn unit_place(z: i32) -> u64
    ensures { (result ≡ Place.unit_place z) × (result ≤ 30240001) }
{
    let m = rounded(z.unsigned_abs());
    if z >= 0 { ORIGIN + m } else { ORIGIN - m }
}

// The place of coordinate k of a ring's points, the origin where there is none.
#[tactic(auto, unfolding(crate::specs::Place::point_place))]
pub fn point_place(points: &[i32], k: usize) -> u64
    ensures { (result ≡ Place.point_place points.now k) × (result ≤ 30240001) }
{
    unit_place(points.get(k).copied().unwrap_or(0))
}

// A place in mm, with four decimals.
fn put_exact(page: &mut Page, n: u64)
    requires { Room page.old (Form.exact n) }
    ensures { Wrote page.old (Form.exact n) page.new }
{
    let d = Decimal {
        minus: n < ORIGIN,
        parts: n.abs_diff(ORIGIN),
    };
    d.put(page);
}

// A place in mm, without decimals where it is whole.
fn put_plain(page: &mut Page, n: u64)
    requires { Room page.old (Form.plain n) }
    ensures { Wrote page.old (Form.plain n) page.new }
{
    if n % 10000 != 0 {
        return put_exact(page, n);
    }
    if n < ORIGIN {
        page.byte(b'-');
    }
    page.decimal(n.abs_diff(ORIGIN) / 10000);
}

// The slots of a picture's forms.
struct PlaceSlots;

impl Slots for PlaceSlots {
    ghost stands = { Form.stands_for };

    ghost takes = { Form.takes };

    #[tactic(auto, unfolding(crate::specs::Form::takes))]
    fn put(page: &mut Page, b: u8, numbers: &mut Iter<'_, u64>) {
        match b {
            b'#' => page.decimal(text::next_number(numbers)),
            b'@' => put_exact(page, text::next_number(numbers)),
            b'~' => put_plain(page, text::next_number(numbers)),
            _ => page.byte(b),
        }
    }
}

// The form with the numbers in its slots, in order.
pub fn put_form(page: &mut Page, form: &[u8], numbers: &[u64])
    requires { Room page.old (Form.formed form.now numbers.now) }
    ensures { Wrote page.old (Form.formed form.now numbers.now) page.new }
{
    page.form::<PlaceSlots>(form, numbers);
}
