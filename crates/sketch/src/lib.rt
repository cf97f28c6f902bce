// Sketch: what is drawn of one block of a job: the ring that its step told or the line of a refused block, and the lead line of
// a chain. It stands above scene and frame, and below picture, which writes the sketches of a job's blocks one after the other.

#![tactic(auto)]

ghost use Rattle.std.specs.Prelude.{◌≡◌, ◌++◌, ◌+◌, ◌*◌, ◌≤◌, ◌<◌, length};
ghost use Rattle.text.specs.Page.{Room, Wrote};
ghost use Rattle.table.specs.Answers as Answers;
ghost use Rattle.told.specs.Text.{tells_of, CanTell};
ghost use Rattle.sketch.specs.Drawn.{row_drawn, told_drawn, lead_at, most_step};

use blocks::Block;
use frame::Edges;
use scene::{Lists, Points};
use table::Answer;
use text::Page;
use told::Told;

// No block's drawing is longer: a ring's text and its lead line.
pub const MOST_STEP: usize = 84000;

// A ring with the cells of its answer: none of a refused one.
fn put_answer(page: &mut Page, ring: u64, answer: Answer, points: &Points, lists: &Lists)
    requires { ((Answers.values answer).code ≡ 0 → (Answers.values answer).cells * 4 ≤ length lists.now.cells.now) × (length lists.now.cells.now ≤ 496)
        × Room page.old (row_drawn ring (Answers.values answer) points.now lists.now) }
    ensures { Wrote page.old (row_drawn ring (Answers.values answer) points.now lists.now) page.new }
{
    let end = match answer {
        Answer::Divided { cells, .. } => cells * 4,
        Answer::Refused { .. } | Answer::Failed { .. } => 0,
    };
    let lists = Lists {
        cells: &lists.cells[..end],
        ..*lists
    };
    scene::put_ring(page, ring, answer, points, &lists);
}

// What is drawn of what a step tells.
#[tactic(auto, using(text::proofs::Pages::wrote_none), unfolding(crate::specs::Drawn::drawn))]
fn put_told(page: &mut Page, f: Edges, told: Told, points: &Points, lists: &Lists)
    requires { CanTell (tells_of told) lists.now.cells.now × Room page.old (told_drawn f (tells_of told) points.now lists.now) }
    ensures { Wrote page.old (told_drawn f (tells_of told) points.now lists.now) page.new }
{
    match told {
        Told::Nothing => {}
        Told::Ring { ring, answer, .. } => put_answer(page, ring, answer, points, lists),
        Told::Block(refused) => f.put_ended(page, u64::from(refused.block), u64::from(refused.why)),
    }
}

// The lead line of block i, where it is a chain.
#[tactic(auto, using(text::proofs::Pages::wrote_none, crate::proofs::Parts::few_in_chain), unfolding(crate::specs::Drawn::lead_at, crate::specs::Drawn::lead_in, crate::specs::Drawn::lead_of))]
fn put_lead(page: &mut Page, job: &[u8], i: usize)
    requires { (512 * i ≤ length job.now) × (i < 4294967296) × Room page.old (lead_at job.now i) }
    ensures { Wrote page.old (lead_at job.now i) page.new }
{
    let Ok(reading) = blocks::read_block(frame::block_at(job, i), i as u32) else {
        return;
    };
    if let Block::Chain { count } = reading.block {
        let chain = Points {
            list: &reading.points,
            count,
        };
        scene::put_lead(page, &chain);
    }
}

// What is drawn of a step, that of block i.
pub fn put_step(
    page: &mut Page,
    f: Edges,
    told: Told,
    points: &Points,
    lists: &Lists,
    job: &[u8],
    i: usize,
)
    requires { CanTell (tells_of told) lists.now.cells.now × (512 * i ≤ length job.now) × (i < 4294967296)
        × (page.old.at + most_step ≤ length page.old.out.now) }
    ensures { Wrote page.old (told_drawn f (tells_of told) points.now lists.now ++ lead_at job.now i) page.new
        × (page.new.at ≤ page.old.at + most_step) }
{
    put_told(page, f, told, points, lists);
    put_lead(page, job, i);
}
