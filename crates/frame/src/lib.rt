// Frame: the extent of a job, and the head of its picture: the size in mm, axes with a number at each tick, a scale bar and a key.
// It stands above svg and job's definitions, and below the program that draws.
//
// All numbers are places or lengths in ten-thousandths of a mm; nothing is negative, and a difference below nothing is nothing.

#![tactic(auto)]

ghost use Rattle.std.specs.Prelude.{◌≡◌, ◌+◌, ◌*◌, ◌≤◌, ◌<◌, length};
ghost use Rattle.text.specs.Page.{Room, Wrote};
ghost use Rattle.job.specs.Run.{block_at};
ghost use Rattle.frame.specs.Bounds as Bounds;
ghost use Rattle.frame.specs.Head as Head;

use blocks::Reading;
use std::marker::Model;
use svg::ORIGIN;
use text::Page;

// The box of all points so far; none of its sides is beyond the highest place.
// Kept: not extent's box of doubles: one for both would have a type parameter, and tests of an order in which a NaN is.
#[derive(Clone, Copy)]
pub struct Extent {
    pub left: u64,
    pub right: u64,
    pub bottom: u64,
    pub top: u64,
}

impl Model for Extent {
    ghost use Rattle.frame.specs.Seen.{Reach, Small};

    ghost Value = { Reach };

    ghost view = { λ e. record { left = e.left; right = e.right; bottom = e.bottom; top = e.top } };

    ghost invariant = { λ e. Small (record { left = e.left; right = e.right; bottom = e.bottom; top = e.top }) };

    ghost inverse = { λ r. record { left = r.left; right = r.right; bottom = r.bottom; top = r.top } };
}

// The box of a picture, its bottom and its top also as an SVG counts them, downward; the margin about it, the size of letters
// and the step of the axes.
#[derive(Clone, Copy)]
pub struct Frame {
    pub left: u64,
    pub right: u64,
    pub bottom: u64,
    pub low: u64,
    pub high: u64,
    pub margin: u64,
    pub em: u64,
    pub step: u64,
}

impl Model for Frame {
    ghost use Rattle.frame.specs.Seen.{Layout, SmallFrame};

    ghost Value = { Layout };

    ghost view = { λ f. record { left = f.left; right = f.right; bottom = f.bottom; low = f.low; high = f.high; margin = f.margin; em = f.em; step = f.step } };

    ghost invariant = { λ f.
        SmallFrame (record { left = f.left; right = f.right; bottom = f.bottom; low = f.low; high = f.high; margin = f.margin; em = f.em; step = f.step }) };

    ghost inverse = { λ l.
        record { left = l.left; right = l.right; bottom = l.bottom; low = l.low; high = l.high; margin = l.margin; em = l.em; step = l.step } };
}

// The edges of a picture by which the line of a refused block stands, wherever they are.
#[derive(Clone, Copy)]
pub struct Edges {
    pub left: u64,
    pub bottom: u64,
}

// The bytes of block i, or what is left of the job.
pub fn block_at(job: &[u8], i: usize) -> &[u8]
    requires { (512 * i ≤ length job.now) × (i < 4294967296) }
    ensures { result.now ≡ block_at job.now i }
{
    let rest = &job[512 * i..];
    &rest[..rest.len().min(512)]
}

// The least power of ten of which forty are more than the size.
#[tactic(auto, using(crate::proofs::Cases::decade_one, crate::proofs::Cases::decade_above, crate::proofs::Cases::decade_bounds))]
fn decade(size: u64) -> u64
    requires { size ≤ 40000000 }
    ensures { (result ≡ Bounds.decade_to size 7) × (0 < result) × (result ≤ 10000000) }
{
    (size / 40).checked_ilog10().map_or(1, |k| 10u64.pow(k + 1))
}

#[tactic(auto, unfolding(crate::specs::Bounds::step_for))]
fn step_for(size: u64) -> u64
    requires { size ≤ 40000000 }
    ensures { (result ≡ Bounds.step_for size) × (0 < result) × (result ≤ 400000000) }
{
    let d = decade(size);
    if size < d * 8 {
        d
    } else if size < d * 16 {
        d * 2
    } else {
        d * 5
    }
}

impl Extent {
    // Kept: no Option: as in the definition a box begins with no point in it and is widened.
    #[tactic(auto, unfolding(crate::specs::Bounds::no_point))]
    fn none() -> Extent
        ensures { result ≡ Bounds.no_point }
    {
        Extent {
            left: 40000000,
            right: 0,
            bottom: 40000000,
            top: 0,
        }
    }

    // The box with one more point.
    #[tactic(auto, unfolding(crate::specs::Bounds::widen))]
    fn with(self, x: u64, y: u64) -> Extent
        requires { (x ≤ 40000000) × (y ≤ 40000000) }
        ensures { result ≡ Bounds.widen self x y }
    {
        Extent {
            left: self.left.min(x),
            right: self.right.max(x),
            bottom: self.bottom.min(y),
            top: self.top.max(y),
        }
    }

    // The box with a block's points.
    #[tactic(auto, unfolding(crate::specs::Bounds::widened, crate::specs::Bounds::met))]
    fn with_block(self, reading: &Reading) -> Extent
        ensures { result ≡ Bounds.met self reading.now }
    {
        let mut e = self;
        let (pairs, _) = reading.points.as_chunks::<2>();
        for pair in &pairs[..reading.block.count().min(60)] {
            e = e.with(svg::point_place(pair, 0), svg::point_place(pair, 1));
        }
        e
    }

    // A box with no point is a bare sheet.
    #[tactic(auto, unfolding(crate::specs::Bounds::or_bare_sheet))]
    fn or_bare_sheet(self) -> Extent
        ensures { result ≡ Bounds.or_bare_sheet self }
    {
        if self.right < self.left {
            return Extent {
                left: ORIGIN,
                right: ORIGIN + 100000,
                bottom: ORIGIN,
                top: ORIGIN + 100000,
            };
        }
        self
    }

    // The longer side.
    fn size(self) -> u64
        ensures { (result ≡ Bounds.size self) × (result ≤ 40000000) }
    {
        let height = self.top.saturating_sub(self.bottom);
        self.right.saturating_sub(self.left).max(height)
    }

    #[tactic(auto, unfolding(crate::specs::Bounds::framed))]
    fn framed(self) -> Frame
        ensures { result ≡ Bounds.framed self }
    {
        let size = self.size();
        Frame {
            left: self.left,
            right: self.right,
            bottom: self.bottom,
            low: 40000000 - self.bottom,
            high: 40000000 - self.top,
            margin: size / 8 + 10,
            em: size / 40 + 1,
            step: step_for(size),
        }
    }
}

// The box of a whole job: that of its blocks up to the first that is refused.
#[tactic(auto, using(crate::proofs::Cases::goes_on, crate::proofs::Cases::ends, crate::proofs::Cases::at_end), unfolding(crate::specs::Bounds::extent_of))]
pub fn extent_of(job: &[u8]) -> Extent
    requires { length job.now < 4294967296 }
    ensures { result ≡ Bounds.extent_of job.now }
{
    let mut e = Extent::none();
    let (whole, _) = job.as_chunks::<512>();
    for (i, block) in whole.iter().enumerate() {
        let Ok(reading) = blocks::read_block(block, i as u32) else {
            return e;
        };
        e = e.with_block(&reading);
    }
    e
}

// The frame of a box.
#[tactic(auto, unfolding(crate::specs::Bounds::frame_of))]
pub fn frame_of(e: Extent) -> Frame
    ensures { result ≡ Bounds.frame_of e }
{
    e.or_bare_sheet().framed()
}

// No picture's head is longer.
pub const MOST_HEAD: usize = 8192;

// What the head's first line says: width and height, where the box begins, and the size of letters.
#[derive(Clone, Copy)]
pub struct View {
    pub wide: u64,
    pub tall: u64,
    pub x: u64,
    pub y: u64,
    pub letters: u64,
}

// The places of the axes and their ticks, of the scale bar and of the key.
#[derive(Clone, Copy)]
pub struct Axes {
    pub under: u64,
    pub beside: u64,
    pub line: u64,
    pub gap: u64,
    pub eastern: u64,
    pub northern: u64,
    pub west: u64,
    pub south: u64,
    pub foot: u64,
    pub bar: u64,
    pub tip: u64,
    pub key: u64,
    pub above: u64,
}

// The first multiple of the step from x on, and the last up to x.
#[tactic(auto, unfolding(crate::specs::Head::multiple_from))]
fn multiple_from(x: u64, step: u64) -> u64
    requires { (x ≤ 40000000) × (0 < step) × (step ≤ 400000000) }
    ensures { (result ≡ Head.multiple_from x step) × (result ≤ 440000000) }
{
    (x + step - 1) / step * step
}

#[tactic(auto, unfolding(crate::specs::Head::multiple_to))]
fn multiple_to(x: u64, step: u64) -> u64
    requires { (x ≤ 40000000) × (0 < step) }
    ensures { result ≡ Head.multiple_to x step }
{
    x / step * step
}

#[tactic(auto, unfolding(crate::specs::Head::box_text, text::specs::Text::bytes))]
fn put_box(page: &mut Page, v: View)
    requires { Room page.old (Head.box_text v) }
    ensures { Wrote page.old (Head.box_text v) page.new }
{
    svg::put_form(
        page,
        b"<svg xmlns='http://www.w3.org/2000/svg' width='@mm' height='@mm' viewBox='@ @ @ @' font-size='@' font-family='sans-serif'>\n",
        &[v.wide, v.tall, v.x, v.y, v.wide, v.tall, v.letters],
    );
}

// How each class looks.
#[tactic(auto, unfolding(crate::specs::Head::looks, crate::specs::Head::looks_form, text::specs::Text::bytes))]
fn put_looks(page: &mut Page)
    requires { Room page.old Head.looks }
    ensures { Wrote page.old Head.looks page.new }
{
    svg::put_form(
        page,
        b"<style>path{fill:none}.outline{fill:aliceblue;fill-opacity:.7}.cell{fill:none;stroke:lightsteelblue;stroke-width:.07em}\
            .rim{stroke:darkslategray;stroke-width:.15em;stroke-linecap:round}\
            .cut{stroke:firebrick;stroke-width:.13em;stroke-dasharray:.45em .3em}\
            .lead{fill:none;stroke:goldenrod;stroke-width:.5em;stroke-opacity:.5;stroke-linecap:round;stroke-linejoin:round}\
            .snapped{fill:none;stroke:darkgoldenrod;stroke-width:.12em}\
            .refused polygon{fill:gainsboro;fill-opacity:.6;stroke:gray;stroke-width:.1em}\
            .refused text{fill:dimgray;font-size:150em;text-anchor:middle}.node circle{fill:darkslategray}\
            .node,.inside,.label,.ended{font-size:100em}.inside circle{fill:steelblue}\
            .node text,.inside text{font-size:.8em;fill:black;stroke:white;stroke-width:.2em;paint-order:stroke}.inside text{fill:steelblue}\
            .axis{stroke:gray;stroke-width:.06em}.tick{stroke:gray;stroke-width:.6em}.bar{stroke:black;stroke-width:.25em}.label{fill:gray}\
            .below{text-anchor:middle}.beside{text-anchor:end;font-size:85em}.key{font-size:75em;fill:dimgray}.ended{fill:firebrick}</style>\n",
        &[],
    );
}

impl Frame {
    #[tactic(auto, unfolding(crate::specs::Head::view_of))]
    fn view(self) -> View
        ensures { result ≡ Head.view_of self }
    {
        View {
            wide: ORIGIN + self.right.saturating_sub(self.left) + self.margin * 2,
            tall: ORIGIN + self.low.saturating_sub(self.high) + self.margin * 2,
            x: self.left.saturating_sub(self.margin),
            y: self.high.saturating_sub(self.margin),
            letters: ORIGIN + self.em,
        }
    }

    #[tactic(auto, unfolding(crate::specs::Head::axes_of))]
    fn axes(self) -> Axes
        ensures { result ≡ Head.axes_of self }
    {
        let line = self.em / 8;
        Axes {
            under: self.low + self.em,
            beside: self.left.saturating_sub(self.em),
            line: ORIGIN + line,
            gap: ORIGIN + self.step.saturating_sub(line),
            eastern: self.right + line,
            northern: self.high.saturating_sub(line),
            west: multiple_from(self.left, self.step),
            south: multiple_to(self.low, self.step),
            foot: self.low + self.em * 7 / 2,
            bar: ORIGIN + self.step,
            tip: self.left + self.step,
            key: self.right + self.em / 2,
            above: self.high.saturating_sub(self.em * 9 / 2),
        }
    }

    // The axes, the scale bar, the key, and the group of all that is drawn.
    #[tactic(auto, unfolding(crate::specs::Head::axes_text, crate::specs::Head::axes_form, text::specs::Text::bytes))]
    fn put_axes(self, page: &mut Page, a: Axes)
        requires { Room page.old (Head.axes_text self a) }
        ensures { Wrote page.old (Head.axes_text self a) page.new }
    {
        let numbers = [
            self.left, a.under, self.right, a.beside, self.low, self.high, a.line, a.gap, a.west,
            a.under, a.eastern, a.line, a.gap, a.beside, a.south, a.northern, self.left, a.foot,
            a.bar, a.tip, a.foot, a.bar, a.key, a.above,
        ];
        svg::put_form(
            page,
            b"<path class='axis' d='M@ @H@M@ @V@'/>\n\
                <path class='tick' stroke-dasharray='@ @' d='M@ @H@'/>\n\
                <path class='tick' stroke-dasharray='@ @' d='M@ @V@'/>\n\
                <path class='bar' d='M@ @h@'/><text class='label' transform='matrix(.01 0 0 .01 @ @)' x='.5em' y='.35em'>~ mm</text>\n\
                <g class='key' transform='matrix(.01 0 0 .01 @ @)'><line class='cut' x2='1.4em'/><text x='1.7em' y='.3em'>cut</text>\
                <line class='cell' x2='1.4em' y1='1.2em' y2='1.2em'/><text x='1.7em' y='1.5em'>cell</text>\
                <line class='lead' x1='.3em' x2='1.1em' y1='2.4em' y2='2.4em'/><text x='1.7em' y='2.7em'>lead</text>\
                <circle class='snapped' cx='.7em' cy='3.6em' r='.5em'/><text x='1.7em' y='3.9em'>snapped</text></g>\n\
                <g transform='scale(1 -1)'>\n",
            &numbers,
        );
    }

    // The number of tick i of the axis below, none beyond its end.
    #[tactic(auto, using(text::proofs::Pages::wrote_none), unfolding(crate::specs::Head::eastward, crate::specs::Head::below_text, text::specs::Text::bytes))]
    fn put_below(self, page: &mut Page, i: u64)
        requires { (i < 9) × Room page.old (Head.below_text self i) }
        ensures { Wrote page.old (Head.below_text self i) page.new }
    {
        let x = multiple_from(self.left, self.step) + i * self.step;
        if self.right < x {
            return;
        }
        svg::put_form(
            page,
            b"<text class='label below' transform='matrix(.01 0 0 .01 @ @)' y='1.4em'>~</text>\n",
            &[x, self.low + self.em, x],
        );
    }

    // The number of tick i of the axis at the side, from below, none beyond its end.
    #[tactic(auto, using(text::proofs::Pages::wrote_none), unfolding(crate::specs::Head::northward, crate::specs::Head::beside_text, text::specs::Text::bytes))]
    fn put_beside(self, page: &mut Page, i: u64)
        requires { (i < 9) × Room page.old (Head.beside_text self i) }
        ensures { Wrote page.old (Head.beside_text self i) page.new }
    {
        let y = multiple_to(self.low, self.step).saturating_sub(i * self.step);
        if y < self.high {
            return;
        }
        let numbers = [
            self.left.saturating_sub(self.em),
            y,
            40000000u64.saturating_sub(y),
        ];
        svg::put_form(
            page,
            b"<text class='label beside' transform='matrix(.01 0 0 .01 @ @)' x='-.6em' y='.35em'>~</text>\n",
            &numbers,
        );
    }

    // The numbers of all ticks: neither axis has more than nine.
    fn put_ticks(self, page: &mut Page)
        requires { Room page.old (Head.ticks_text self 9) }
        ensures { Wrote page.old (Head.ticks_text self 9) page.new }
    {
        // Kept: it goes over numbers and no list.
        for i in 0..9 {
            self.put_below(page, i);
            self.put_beside(page, i);
        }
    }

    // The head of a picture, up to where its rings begin.
    pub fn put_head(self, page: &mut Page)
        requires { Room page.old (Head.head_text self) }
        ensures { Wrote page.old (Head.head_text self) page.new × (length (Head.head_text self) ≤ Head.most_head) }
    {
        put_box(page, self.view());
        put_looks(page);
        self.put_ticks(page);
        self.put_axes(page, self.axes());
    }

    // Its edges.
    pub fn edges(self) -> Edges
        ensures { result ≡ Head.edges_of self }
    {
        let Frame { left, bottom, .. } = self;
        Edges { left, bottom }
    }
}

impl Edges {
    // The line of a refused block, at the foot. Kept: its number, which is what is printed.
    #[tactic(auto, unfolding(crate::specs::Head::ended_text, text::specs::Text::bytes))]
    pub fn put_ended(self, page: &mut Page, block: u64, code: u64)
        requires { Room page.old (Head.ended_text self block code) }
        ensures { Wrote page.old (Head.ended_text self block code) page.new }
    {
        svg::put_form(
            page,
            b"<text class='ended' transform='matrix(.01 0 0 -.01 @ @)' y='4.8em'>block # refused #</text>\n",
            &[self.left, self.bottom, block, code],
        );
    }
}

// The end of a picture.
#[tactic(auto, using(crate::proofs::Lengths::foot_length), unfolding(crate::specs::Head::foot_text, text::specs::Text::bytes))]
pub fn put_foot(page: &mut Page)
    requires { Room page.old Head.foot_text }
    ensures { Wrote page.old Head.foot_text page.new × (length Head.foot_text ≤ Head.most_head) }
{
    svg::put_form(page, b"</g>\n</svg>\n", &[]);
}
