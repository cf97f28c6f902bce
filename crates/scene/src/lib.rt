// Scene: what is drawn of a ring, of its lead line and of a node, as the text of SVG elements. It stands above svg, beside job:
// it takes the answer of a ring with its points, and the node list, the rim marks and the cells that the call left.
//
// Each function that writes has room on its page, as in text; proofs/Lengths says how much is enough.

#![tactic(auto)]

ghost use Rattle.std.specs.Prelude.{◌≡◌, ◌*◌, ◌/◌, ◌<◌, length};
ghost use Rattle.table.specs.Answers as Answers;
ghost use Rattle.text.specs.Page.{Room, Wrote};
ghost use Rattle.scene.specs.Scene as Scene;
ghost use Rattle.scene.specs.Handed as Handed;

mod points;

use nodes::NodeNumber;
pub use points::Points;
use table::{Answer, Row};
use text::Page;

// No ring's text is longer.
pub const MOST_RING: usize = 80000;

// Where a node is, as places of a picture.
#[derive(Clone, Copy)]
pub struct Spot {
    pub x: u64,
    pub y: u64,
}

// A cell: where its centre, its corner and the middles before and behind the corner are, the next corner behind that middle,
// and whether each middle is on a ring's rim.
#[derive(Clone, Copy)]
pub struct Quad {
    pub centre: Spot,
    pub ahead: Spot,
    pub corner: Spot,
    pub behind: Spot,
    pub next: Spot,
    pub first: bool,
    pub second: bool,
}

// What a call left: the node list, the rim marks of its nodes, and cells of four node numbers each.
// Kept: apart from a ring's points, which are handed on with them: a lead line has points and no lists.
#[derive(Clone, Copy)]
pub struct Lists<'a> {
    pub nodes: &'a [f64],
    pub rims: &'a [u8],
    pub cells: &'a [NodeNumber],
}

#[tactic(auto, unfolding(crate::specs::Scene::spot_of))]
fn spot_of(nodes: &[f64], n: NodeNumber) -> Spot
    ensures { result ≡ Scene.spot_of nodes.now n }
{
    let k = n as usize * 2;
    Spot {
        x: svg::node_place(nodes, k),
        y: svg::node_place(nodes, k + 1),
    }
}

// Whether node n is on a ring's rim: 0 marks one that is not, and one past the marks is not.
#[tactic(auto, unfolding(crate::specs::Scene::on_rim))]
fn on_rim(rims: &[u8], n: NodeNumber) -> bool
    ensures { result ≡ Scene.on_rim rims.now n }
{
    rims.get(n as usize).copied().unwrap_or(0) != 0
}

#[tactic(auto, unfolding(text::specs::Text::bytes, crate::specs::Scene::cell_text))]
fn put_cell(page: &mut Page, a: Spot, b: Spot, c: Spot, d: Spot)
    requires { Room page.old (Scene.cell_text a b c d) }
    ensures { Wrote page.old (Scene.cell_text a b c d) page.new }
{
    let numbers = [a.x, a.y, b.x, b.y, c.x, c.y, d.x, d.y];
    svg::put_form(
        page,
        b"<polygon class='cell' points='@,@ @,@ @,@ @,@'/>\n",
        &numbers,
    );
}

// Half of an edge: of a ring's where the middle is on a rim, else of a cut.
#[tactic(auto, unfolding(text::specs::Text::bytes, crate::specs::Scene::half_text))]
fn put_half(page: &mut Page, rim: bool, a: Spot, b: Spot)
    requires { Room page.old (Scene.half_text rim a b) }
    ensures { Wrote page.old (Scene.half_text rim a b) page.new }
{
    let form: &[u8] = if rim {
        b"<path class='rim' d='M@ @L@ @'/>\n"
    } else {
        b"<path class='cut' d='M@ @L@ @'/>\n"
    };
    svg::put_form(page, form, &[a.x, a.y, b.x, b.y]);
}

// The corner behind the middle m of a piece: that of its cell which has m before its corner.
fn across(cells: &[NodeNumber], c: NodeNumber, m: NodeNumber) -> NodeNumber
    ensures { result ≡ Scene.across cells.now c m (length cells.now / 4) }
{
    let (cells, _) = cells.as_chunks::<4>();
    let last = cells.iter().rev().find(|cell| cell[0] == c && cell[1] == m);
    last.map_or(0, |cell| cell[2])
}

// A cell of a list, its nodes looked up.
#[tactic(auto, unfolding(crate::specs::Scene::quad_with))]
fn read_quad(lists: &Lists, cell: &[NodeNumber; 4]) -> Quad
    ensures { result ≡ Handed.quad lists.now cell.now }
{
    let [centre, before, corner, after] = *cell;
    Quad {
        centre: spot_of(lists.nodes, centre),
        ahead: spot_of(lists.nodes, before),
        corner: spot_of(lists.nodes, corner),
        behind: spot_of(lists.nodes, after),
        next: spot_of(lists.nodes, across(lists.cells, centre, after)),
        first: on_rim(lists.rims, before),
        second: on_rim(lists.rims, after),
    }
}

// Whether m is off halfway between a and b.
#[tactic(auto, unfolding(crate::specs::Scene::off))]
fn off(a: u64, m: u64, b: u64) -> bool
    ensures { result ≡ Scene.off a m b }
{
    m.abs_diff(a / 2 + b / 2) > 2
}

// Whether the middle behind a cell's corner has snapped to a lead line.
#[tactic(auto, unfolding(crate::specs::Scene::snapped))]
fn snapped(q: Quad) -> bool
    ensures { result ≡ Scene.snapped q }
{
    off(q.corner.x, q.behind.x, q.next.x) || off(q.corner.y, q.behind.y, q.next.y)
}

// The sign of a snapped middle.
#[tactic(auto, using(text::proofs::Pages::wrote_none), unfolding(text::specs::Text::bytes, crate::specs::Scene::snap_text))]
fn put_snap(page: &mut Page, q: Quad)
    requires { Room page.old (Scene.snap_text q) }
    ensures { Wrote page.old (Scene.snap_text q) page.new }
{
    if snapped(q) {
        svg::put_form(
            page,
            b"<circle class='snapped' cx='@' cy='@' r='.5em'/>\n",
            &[q.behind.x, q.behind.y],
        );
    }
}

// A cell, the two halves at its corner, and the sign where the second has snapped.
fn put_quad(page: &mut Page, q: Quad)
    requires { Room page.old (Scene.quad_text q) }
    ensures { Wrote page.old (Scene.quad_text q) page.new }
{
    put_cell(page, q.centre, q.ahead, q.corner, q.behind);
    put_half(page, q.first, q.corner, q.ahead);
    put_half(page, q.second, q.corner, q.behind);
    put_snap(page, q);
}

#[tactic(auto, using(text::proofs::Pages::wrote_none), unfolding(crate::specs::Scene::quads_text))]
fn put_quads(page: &mut Page, lists: &Lists)
    requires { Room page.old (Handed.cells lists.now) }
    ensures { Wrote page.old (Handed.cells lists.now) page.new }
{
    for cell in lists.cells.as_chunks::<4>().0 {
        put_quad(page, read_quad(lists, cell));
    }
}

#[tactic(auto, unfolding(text::specs::Text::bytes, crate::specs::Scene::placed))]
fn put_place(page: &mut Page, p: Spot)
    requires { Room page.old (Scene.placed p.x p.y) }
    ensures { Wrote page.old (Scene.placed p.x p.y) page.new }
{
    svg::put_form(page, b"@,@ ", &[p.x, p.y]);
}

#[tactic(auto, using(text::proofs::Pages::wrote_none), unfolding(crate::specs::Scene::points_text))]
fn put_points(page: &mut Page, points: &Points)
    requires { Room page.old (Handed.points points.now) }
    ensures { Wrote page.old (Handed.points points.now) page.new }
{
    // Kept: points are counted, since one past the end of the list is drawn too, at the origin.
    for i in 0..points.count {
        put_place(page, points.spot(i));
    }
}

// The lead line through a chain; nothing of one without points.
#[tactic(auto, using(text::proofs::Pages::wrote_none, crate::proofs::Turns::in_turn), unfolding(text::specs::Text::bytes, crate::specs::Scene::lead_text))]
pub fn put_lead(page: &mut Page, chain: &Points)
    requires { Room page.old (Handed.lead chain.now) }
    ensures { Wrote page.old (Handed.lead chain.now) page.new }
{
    if chain.count == 0 {
        return;
    }
    svg::put_form(page, b"<polyline class='lead' points='", &[]);
    put_points(page, chain);
    svg::put_form(page, b"'/>\n", &[]);
}

// The outline of an accepted ring, and the beginning of its group.
#[tactic(auto, using(crate::proofs::Turns::in_turn), unfolding(text::specs::Text::bytes, crate::specs::Scene::outline_text))]
fn put_outline(page: &mut Page, ring: u64, corners: u64, cuts: u64, points: &Points)
    requires { Room page.old (Handed.outline ring corners cuts points.now) }
    ensures { Wrote page.old (Handed.outline ring corners cuts points.now) page.new }
{
    svg::put_form(
        page,
        b"<g class='ring'><title>ring #: corners #, cuts #</title>\n<polygon class='outline' points='",
        &[ring, corners, cuts],
    );
    put_points(page, points);
    svg::put_form(page, b"'/>\n", &[]);
}

// An accepted ring: its outline, its cells and their edges.
#[tactic(auto, using(crate::proofs::Turns::in_turn), unfolding(text::specs::Text::bytes, crate::specs::Scene::divided_text))]
pub fn put_divided(
    page: &mut Page,
    ring: u64,
    corners: u64,
    cuts: u64,
    points: &Points,
    lists: &Lists,
)
    requires { Room page.old (Handed.divided ring corners cuts points.now lists.now) }
    ensures { Wrote page.old (Handed.divided ring corners cuts points.now lists.now) page.new }
{
    put_outline(page, ring, corners, cuts, points);
    put_quads(page, lists);
    svg::put_form(page, b"</g>\n", &[]);
}

// A refused ring: its outline, and its number in it.
// Kept: its number, which is what is drawn, and may be any; 8, of a failing cell, is no `Refusal`.
#[tactic(auto, using(crate::proofs::Turns::in_turn), unfolding(text::specs::Text::bytes, crate::specs::Scene::refused_text))]
pub fn put_refused(page: &mut Page, ring: u64, code: u64, corners: u64, k: u64, points: &Points)
    requires { Room page.old (Handed.refused ring code corners k points.now) }
    ensures { Wrote page.old (Handed.refused ring code corners k points.now) page.new }
{
    svg::put_form(
        page,
        b"<g class='refused'><title>ring # refused # # #</title>\n<polygon points='",
        &[ring, code, corners, k],
    );
    put_points(page, points);
    let label = points.label();
    svg::put_form(
        page,
        b"'/>\n<text transform='matrix(.01 0 0 -.01 @ @)'>#</text></g>\n",
        &[label.x, label.y, code],
    );
}

// A ring by its answer.
#[tactic(auto, unfolding(crate::specs::Scene::ring_text))]
pub fn put_ring(page: &mut Page, ring: u64, answer: Answer, points: &Points, lists: &Lists)
    requires { Room page.old (Handed.ring ring (Answers.values answer) points.now lists.now) }
    ensures { Wrote page.old (Handed.ring ring (Answers.values answer) points.now lists.now) page.new }
{
    match answer {
        Answer::Divided { corners, cuts, .. } => {
            put_divided(page, ring, corners as u64, cuts as u64, points, lists)
        }
        Answer::Refused { .. } | Answer::Failed { .. } => {
            let row = Row::from(answer);
            put_refused(page, ring, row.code, row.corners, row.k, points)
        }
    }
}

// A dot and a number: of a node on a rim, or of one inside.
#[tactic(auto, unfolding(text::specs::Text::bytes, crate::specs::Scene::dot_text))]
fn put_dot(page: &mut Page, rim: bool, p: Spot, n: u64)
    requires { Room page.old (Scene.dot_text rim p n) }
    ensures { Wrote page.old (Scene.dot_text rim p n) page.new }
{
    let form: &[u8] = if rim {
        b"<g class='node' transform='matrix(.01 0 0 -.01 @ @)'><circle r='.22em'/><text x='.3em' y='-.3em'>#</text></g>\n"
    } else {
        b"<g class='inside' transform='matrix(.01 0 0 -.01 @ @)'><circle r='.22em'/><text x='.3em' y='-.3em'>#</text></g>\n"
    };
    svg::put_form(page, form, &[p.x, p.y, n]);
}

// Node i: a dot, and its number.
#[tactic(auto, unfolding(crate::specs::Scene::node_text))]
pub fn put_node(page: &mut Page, nodes: &[f64], rims: &[u8], i: usize)
    requires { (i < 4294967296) × Room page.old (Scene.node_text nodes.now rims.now i) }
    ensures { Wrote page.old (Scene.node_text nodes.now rims.now i) page.new }
{
    let n = i as NodeNumber;
    put_dot(page, on_rim(rims, n), spot_of(nodes, n), i as u64);
}
