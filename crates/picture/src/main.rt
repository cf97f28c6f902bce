// Picture: the program that draws a job. Job blocks on standard input, as `divide` reads them; on standard output one SVG, to
// scale: outlines, cuts, cells, lead lines and the middles that snapped to them, numbered nodes, refused rings in grey with
// their number, axes in mm and a scale bar.
//
// The box of the drawing stands in front, so the whole job is read first, 256 rings at most. Then the blocks are stepped over
// by `run::Job`. specs/Picture says what comes out as one definition, `pictured`: each text that is handed over is what it has
// next after the bytes written so far, and the writer gets it. `draw_job` is the whole program: a run that ends has written
// `pictured` of what it has read, and that is all that the reader had, where no read failed, by `Own`; `main` only says how it
// ended. What is left to the operating system's calls is said in stream.

#![tactic(auto)]

ghost use Rattle.std.specs.Prelude.{◌≡◌, false, ◌++◌, ◌+◌, ◌*◌, ◌%◌, ◌≤◌, ◌<◌, length, IfOk, IfErr, OnOk};
ghost use Rattle.std.specs.Io.KnownBytes.{Appends};
ghost use Rattle.told.specs.Text.{tells_of, CanTell};
ghost use Rattle.sketch.specs.Drawn.{told_drawn, lead_at, most_step};
ghost use Rattle.frame.specs.Bounds.{extent_of, frame_of};
ghost use Rattle.frame.specs.Head.{head_text, most_head};
ghost use Rattle.picture.specs.Picture.{on, drawn_to, rings_drawn, all_drawn, pictured, most_rings, Wrote, Owed, Sends, Grows, Reached, Drew, Left};
ghost use Rattle.picture.specs.Picture.{torn, counted, Ends, Own, said};

use frame::{Edges, Frame, MOST_HEAD};
use run::Job;
use scene::{Lists, Points};
use sketch::MOST_STEP;
use std::io::{Read, Write};
use stream::{ReadFailed, WriteFailed};
use text::Page;
use told::Told;

// The blocks of 256 rings.
const MOST_JOB: usize = 262144;

// How the program ended, where no write failed: a picture of so many bytes was written, of what was read; or there were too
// many bytes to read.
// Kept: too long a job is no error of writing: it has words of its own, as what was read has.
#[derive(Clone, Copy)]
pub enum End {
    Drawn {
        read: Result<usize, ReadFailed>,
        sent: u64,
    },
    TooLong {
        count: usize,
    },
}

// Where a failed read leaves the job: within a block, so that the run is refused there.
fn torn(done: usize) -> usize
    requires { done < 4294967296 }
    ensures { (result ≡ torn done) × (result ≤ done + 1) × (0 < result % 512) }
{
    if done % 512 == 0 { done + 1 } else { done }
}

// How many bytes of a job there are.
fn count_of(read: Result<usize, ReadFailed>) -> usize
    requires ok { IfOk read (λ n. n ≤ 262145) }
    requires err { IfErr read (λ failed. failed.done < 262145) }
    ensures { (result ≡ counted read) × (result ≤ 262145) × IfErr read (λ failed. 0 < result % 512) }
{
    read.unwrap_or_else(|failed| torn(failed.done))
}

// Writes the text on a page, which is owed after `sent` bytes.
// Kept: a wrapper of write_counted as in telling and sheet_lines, since each asks that its own Owed holds; a generic one would
// need a trait for that and a type to carry it.
fn send<W: Write>(
    output: &mut W,
    job: &[u8],
    page: &Page,
    sent: &mut u64,
) -> Result<(), WriteFailed>
    requires { Owed job.now sent.old (on page.now) × (page.now.at ≤ length page.now.out.now) × (page.now.at ≤ most_step) }
    ensures count { OnOk result (sent.new ≡ sent.old + page.now.at) }
    ensures bytes { OnOk result (Appends (W.contents output.old) (W.contents output.new) (on page.now)) }
{
    let text = &page.out[..page.at];
    stream::write_counted(output, text, sent)
}

// Writes what is drawn of a step, that of block i.
fn draw_step<W: Write>(
    output: &mut W,
    job: &[u8],
    f: Edges,
    told: Told,
    points: &Points,
    lists: &Lists,
    i: usize,
    sent: &mut u64,
) -> Result<(), WriteFailed>
    requires { Owed job.now sent.old (told_drawn f (tells_of told) points.now lists.now ++ lead_at job.now i)
        × CanTell (tells_of told) lists.now.cells.now × (512 * i ≤ length job.now) × (i < 4294967296) }
    ensures sends { OnOk result (Sends sent.old (told_drawn f (tells_of told) points.now lists.now ++ lead_at job.now i) sent.new) }
    ensures bytes { OnOk result (Appends (W.contents output.old) (W.contents output.new)
        (told_drawn f (tells_of told) points.now lists.now ++ lead_at job.now i)) }
{
    let mut text = [0u8; MOST_STEP];
    let mut page = Page {
        out: &mut text,
        at: 0,
    };
    sketch::put_step(&mut page, f, told, points, lists, job, i);
    send(output, job, &page, sent)
}

// Steps over the next block, which is drawn when it is told.
fn turn<W: Write>(
    output: &mut W,
    job: &[u8],
    f: Frame,
    run: &mut Job,
    sent: &mut u64,
) -> Result<(), WriteFailed>
    requires { Reached job.now run.old.state.block run.old.state run.old.ring run.old.nodes run.old.rims × Drew job.now run.old.state.block sent.old
        × (run.old.state.ended ≡ false)
        × (f ≡ frame_of (extent_of job.now)) × (length job.now < 4294967296) }
    ensures reached { Reached job.now (run.old.state.block + 1) run.new.state run.new.ring run.new.nodes run.new.rims }
    ensures drew { OnOk result (Drew job.now (run.old.state.block + 1) sent.new) }
    ensures bytes { OnOk result (Grows (W.contents output.old) (W.contents output.new)
        (drawn_to (frame_of (extent_of job.now)) job.now run.old.state.block) (drawn_to (frame_of (extent_of job.now)) job.now (run.old.state.block + 1))) }
{
    let i = run.state.block as usize;
    let told = run.step(frame::block_at(job, i));
    let points = Points {
        list: &run.ring,
        count: run.state.count,
    };
    let lists = Lists {
        nodes: &run.nodes,
        rims: &run.rims,
        cells: &run.cells,
    };
    draw_step(output, job, f.edges(), told, &points, &lists, i, sent)
}

// Writes the nodes that a run has left, after the head and the rings.
fn draw_nodes<W: Write>(
    output: &mut W,
    job: &[u8],
    nodes: &[f64],
    rims: &[u8],
    used: usize,
    sent: &mut u64,
) -> Result<(), WriteFailed>
    requires { Left job.now used nodes.now rims.now × (sent.old ≡ length (rings_drawn job.now)) × (sent.old ≤ most_rings) }
    ensures wrote { OnOk result (Wrote (all_drawn job.now) sent.new) }
    ensures bytes { OnOk result (Grows (W.contents output.old) (W.contents output.new) (rings_drawn job.now) (all_drawn job.now)) }
{
    // Kept: it goes over the numbers of nodes, which are drawn; over the list's pairs it would enumerate them and use the number
    // alone.
    for i in 0..used {
        let mut text = [0u8; 256];
        let mut page = Page {
            out: &mut text,
            at: 0,
        };
        scene::put_node(&mut page, nodes, rims, i);
        send(output, job, &page, sent)?;
    }
    Ok(())
}

// Runs the job over an empty node list, and draws each ring when it is told, then the nodes. The head stands before them.
fn draw<W: Write>(output: &mut W, job: &[u8], f: Frame, sent: &mut u64) -> Result<(), WriteFailed>
    requires { (length job.now < 4294967296) × (f ≡ frame_of (extent_of job.now)) × (sent.old ≡ length (head_text f)) × (sent.old ≤ most_head) }
    ensures wrote { OnOk result (Wrote (all_drawn job.now) sent.new) }
    ensures bytes { OnOk result (Grows (W.contents output.old) (W.contents output.new) (head_text f) (all_drawn job.now)) }
{
    let mut run = Job::new();
    // Kept: the state says when the run ends; the job's chunks would lack the step without bytes after the last of them.
    while state::goes_on(run.state) {
        turn(output, job, f, &mut run, sent)?;
    }
    draw_nodes(output, job, &run.nodes, &run.rims, run.state.used, sent)
}

// The whole picture of a job.
fn picture<W: Write>(output: &mut W, job: &[u8], sent: &mut u64) -> Result<(), WriteFailed>
    requires { (length job.now < 4294967296) × (sent.old ≡ 0) }
    ensures count { OnOk result (sent.new ≡ length (pictured job.now)) }
    ensures bytes { OnOk result (Appends (W.contents output.old) (W.contents output.new) (pictured job.now)) }
{
    let mut text = [0u8; MOST_HEAD];
    let mut head = Page {
        out: &mut text,
        at: 0,
    };
    let f = frame::frame_of(frame::extent_of(job));
    f.put_head(&mut head);
    send(output, job, &head, sent)?;
    draw(output, job, f, sent)?;
    let mut last = [0u8; 16];
    let mut foot = Page {
        out: &mut last,
        at: 0,
    };
    frame::put_foot(&mut foot);
    send(output, job, &foot, sent)
}

// The whole program: reads a job and draws it.
fn draw_job<R: Read, W: Write>(
    input: &mut R,
    output: &mut W,
    bytes: &mut [u8],
) -> Result<End, WriteFailed>
    requires { length bytes.old ≡ 262145 }
    ensures ends { IfOk result (Ends bytes.new) }
    ensures own { IfOk result (Own (R.remaining input.old) (R.remaining input.new) (W.contents output.old) (W.contents output.new) bytes.new) }
{
    let read = stream::fill(input, bytes);
    let count = count_of(read);
    if MOST_JOB < count {
        return Ok(End::TooLong { count });
    }
    let mut sent: u64 = 0;
    picture(output, &bytes[..count], &mut sent)?;
    Ok(End::Drawn { read, sent })
}

// Hands over the words of how it ended.
fn say<W: Write>(output: &mut W, end: Result<End, WriteFailed>, words: &[u8])
    requires { words.now ≡ said end }
{
    let _ = stream::write_all(output, words);
}

#[tactic(auto, unfolding(crate::specs::Picture::said, text::specs::Text::bytes))]
fn say_end<W: Write>(output: &mut W, end: Result<End, WriteFailed>) {
    match end {
        Ok(End::Drawn { .. }) => say(output, end, b""),
        Ok(End::TooLong { .. }) => say(output, end, b"picture: more than 256 rings\n"),
        Err(_) => say(output, end, b"picture: standard output failed\n"),
    }
}

fn main(rt: HostRuntime) {
    let mut bytes = [0u8; 262145];
    let end = draw_job(&mut rt.stdin(), &mut rt.stdout(), &mut bytes);
    say_end(&mut rt.stderr(), end);
}
