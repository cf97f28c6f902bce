// Report: the printed lines of an answer, as bytes in a list that the caller lends; the last step in the way of a ring.
//
// The lines are forms of crate text. The three functions that print write from the front and return the count of bytes: a
// list of 6,400 bytes holds every text.

#![tactic(auto)]

ghost use Rattle.std.specs.Prelude.{◌≡◌, ◌&&◌, ◌+◌, ◌*◌, ◌/◌, ◌≤◌, ◌<◌, length};
ghost use Rattle.text.specs.Page.{Room, Wrote};
ghost use Rattle.report.specs.Report as Report;
ghost use Rattle.text.specs.Text.{filled};
ghost use Rattle.report.specs.Report.{Printed, holds, few_cells, most_text};

use text::Page;

// No text is longer, whatever the numbers.
pub const MOST_TEXT: usize = 6400;

// What is printed of an accepted ring, its cells aside: its number, corners after cleaning and cuts, the turned area and
// the ring's own, both doubled and in units squared, the nodes listed and those added.
#[derive(Clone, Copy)]
pub struct Divided {
    pub ring: u64,
    pub corners: u64,
    pub cuts: u64,
    pub turned: u64,
    pub area: u64,
    pub nodes: u64,
    pub added: u64,
}

// To the nearest, halves up; in two steps, so that no area is too large for 64 bits.
#[tactic(auto, unfolding(crate::specs::Report::hundredths))]
fn hundredths(area: u64) -> u64
    ensures { result ≡ Report.hundredths area }
{
    area / 134217728 * 100 + (area % 134217728 * 100 + 67108864) / 134217728
}

#[tactic(auto, unfolding(crate::specs::Report::ring_line, text::specs::Text::bytes))]
fn put_ring(page: &mut Page, a: Divided)
    requires { Room page.old (Report.ring_line a) }
    ensures { Wrote page.old (Report.ring_line a) page.new }
{
    let numbers = [a.ring, a.corners, a.cuts, a.turned, hundredths(a.area)];
    page.filled(b"ring # corners # cuts # turned # area #\n", &numbers);
}

#[tactic(auto, unfolding(crate::specs::Report::nodes_line, text::specs::Text::bytes))]
fn put_nodes(page: &mut Page, nodes: u64, added: u64)
    requires { Room page.old (Report.nodes_line nodes added) }
    ensures { Wrote page.old (Report.nodes_line nodes added) page.new }
{
    page.filled(b"nodes # new #\n", &[nodes, added]);
}

fn put_quads(page: &mut Page, cells: &[u32])
    requires { Room page.old (Report.quad_lines cells.now (length cells.now / 4)) }
    ensures { Wrote page.old (Report.quad_lines cells.now (length cells.now / 4)) page.new }
{
    for [a, b, c, d] in cells.as_chunks::<4>().0 {
        let numbers = [u64::from(*a), u64::from(*b), u64::from(*c), u64::from(*d)];
        page.filled(b"quad # # # #\n", &numbers);
    }
}

// The lines of an accepted ring and its cells, four node numbers a cell and at most 124 of them.
pub fn print_ring(out: &mut [u8], a: Divided, cells: &[u32]) -> usize
    ensures { Printed (holds out.old && few_cells cells.now) out.old
        (Report.ring_text a cells.now) result out.new }
{
    if out.len() < MOST_TEXT || cells.len() > 496 {
        return 0;
    }
    let mut page = Page { out, at: 0 };
    put_ring(&mut page, a);
    put_nodes(&mut page, a.nodes, a.added);
    put_quads(&mut page, cells);
    page.at
}

// A form alone, filled with its numbers.
fn print_form(out: &mut [u8], form: &[u8], numbers: &[u64]) -> usize
    requires { length (filled form.now numbers.now) ≤ most_text }
    ensures { Printed (holds out.old) out.old (filled form.now numbers.now) result out.new }
{
    if out.len() < MOST_TEXT {
        return 0;
    }
    let mut page = Page { out, at: 0 };
    page.filled(form, numbers);
    page.at
}

// Kept: the numbers of a refused ring's row as they are printed. For an `Answer` in their place this crate would stand on table,
// and have nothing to print of one that is divided.
#[tactic(auto, unfolding(text::specs::Text::bytes, crate::specs::Report::refused_ring))]
pub fn print_refused_ring(out: &mut [u8], ring: u64, code: u64, corners: u64, k: u64) -> usize
    ensures { Printed (holds out.old) out.old (Report.refused_ring ring code corners k) result out.new }
{
    print_form(out, b"ring # refused # # #\n", &[ring, code, corners, k])
}

// Kept: the refusal as its number, which is printed. For the refusal itself this crate would stand on blocks, to call `u64::from`
// that its one caller calls.
#[tactic(auto, unfolding(text::specs::Text::bytes, crate::specs::Report::refused_block))]
pub fn print_refused_block(out: &mut [u8], block: u64, code: u64) -> usize
    ensures { Printed (holds out.old) out.old (Report.refused_block block code) result out.new }
{
    print_form(out, b"block # refused #\n", &[block, code])
}
