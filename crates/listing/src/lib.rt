// Listing: the cell sheet, a paper list of the nodes with one line of 64 columns and a line feed for each used node. It stands
// above nodes and decimals, beside the way of a ring: it reads the node list that the divider's calls left. What is written is
// said over texts, as in `report`.

#![tactic(auto)]

ghost use Rattle.std.specs.Prelude.{◌≡◌, ◌+◌, ◌*◌, ◌≤◌, ◌<◌, length, get_or, replicate};
ghost use Rattle.std.specs.Float.{nan};
ghost use Rattle.laws.specs.Within.{Within};
ghost use Rattle.nodes.specs.Flat.{Usable};
ghost use Rattle.text.specs.Text.{decimal, Written};
ghost use Rattle.text.specs.Page.{Room, Wrote};
ghost use Rattle.decimals.specs.Shown as Shown;
ghost use Rattle.listing.specs.Sheet as Sheet;

use decimals::Decimal;
use nodes::MOST_PLACES;
use text::Page;

// How many digits n has.
fn width(n: u64) -> usize
    ensures { (result ≡ length (decimal n)) × (result ≤ 20) }
{
    n.checked_ilog10().unwrap_or(0) as usize + 1
}

fn put_spaces(page: &mut Page, n: usize)
    requires { Room page.old (replicate n 32) }
    ensures { Wrote page.old (replicate n 32) page.new }
{
    page.out[page.at..page.at + n].fill(b' ');
    page.at += n;
}

// A node's number, in 8 columns.
#[tactic(auto, using(crate::proofs::Texts::number_most, crate::proofs::Aligned::right_spaces, crate::proofs::Aligned::right_room))]
fn put_number(page: &mut Page, i: u64)
    requires { (i < 1000000) × Room page.old (Sheet.right_aligned 8 (decimal i)) }
    ensures { Wrote page.old (Sheet.right_aligned 8 (decimal i)) page.new }
{
    put_spaces(page, 8 - width(i));
    page.decimal(i);
}

// How many columns a decimal takes: the point and its four digits, and the minus.
fn columns(d: Decimal) -> usize
    ensures { (result ≡ length (Shown.decimals d.minus d.parts)) × (result ≤ 26) }
{
    width(d.parts / 10000) + 5 + usize::from(d.minus)
}

// A coordinate, in 28 columns.
fn put_coordinate(page: &mut Page, x: f64)
    requires { Within 1024 x × Room page.old (Sheet.right_aligned 28 (Shown.shown x)) }
    ensures { Wrote page.old (Sheet.right_aligned 28 (Shown.shown x)) page.new }
{
    let d = Decimal::of(x);
    put_spaces(page, 28 - columns(d));
    d.put(page);
}

// The line of node i on a page.
fn line(page: &mut Page, nodes: &[f64], i: usize)
    requires { (i < 1000000) × (i * 2 + 1 < length nodes.now)
        × Within 1024 (get_or nodes.now (i * 2) nan) × Within 1024 (get_or nodes.now (i * 2 + 1) nan) × Room page.old (Sheet.line nodes.now i) }
    ensures { Wrote page.old (Sheet.line nodes.now i) page.new }
{
    put_number(page, i as u64);
    put_coordinate(page, nodes[i * 2]);
    put_coordinate(page, nodes[i * 2 + 1]);
    page.byte(b'\n');
}

// The line of node i, from the place `at` on; answers the place after it.
// Kept: a list and a place, as a caller had them; `line` is the same on a page.
pub fn put_line(out: &mut [u8], at: usize, nodes: &[f64], i: usize) -> usize
    requires { (i < 1000000) × (i * 2 + 1 < length nodes.now)
        × Within 1024 (get_or nodes.now (i * 2) nan) × Within 1024 (get_or nodes.now (i * 2 + 1) nan) × (at + 65 ≤ length out.old) }
    ensures { Written out.old at (Sheet.line nodes.now i) result out.new }
{
    let mut page = Page { out, at };
    line(&mut page, nodes, i);
    page.at
}

fn put_lines(out: &mut [u8], nodes: &[f64], count: usize) -> usize
    requires { Usable nodes.now count × (count * 65 ≤ length out.old) }
    ensures { Written out.old 0 (Sheet.lines nodes.now count) result out.new }
{
    let mut page = Page { out, at: 0 };
    // Kept: over the pairs of numbers `line` would be handed a number, x and y, which `put_line` would take out of the list by
    // itself, and the definition of node i's line would be two.
    for i in 0..count {
        line(&mut page, nodes, i);
    }
    page.at
}

// 3: the used count, the number of places, or a used node.
#[tactic(auto, using(nodes::proofs::Ranged::front_on_sheet), unfolding(crate::specs::Sheet::nodes_out))]
pub fn nodes_out(nodes: &[f64], count: usize) -> bool
    ensures { result ≡ Sheet.nodes_out nodes.now count }
{
    let places = nodes.len() / 2;
    places < count || MOST_PLACES < places || !nodes::all_on_sheet(&nodes[..count * 2])
}

// The sheet of the first `node_count` nodes: 0, or 3 or 17 and no byte written. Kept: a number, which C reads.
pub fn node_sheet(nodes: &[f64], node_count: usize, out: &mut [u8]) -> u64
    ensures { (result ≡ Sheet.answer nodes.now node_count out.old)
        × (out.new ≡ Sheet.left nodes.now node_count out.old) }
{
    if nodes_out(nodes, node_count) {
        return 3;
    }
    if out.len() < node_count * 65 {
        return 17;
    }
    put_lines(out, nodes, node_count);
    0
}
