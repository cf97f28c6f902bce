// Told: what a step of a run tells of its block, and the text of it. It stands above table, blocks and report, and below job,
// whose steps tell; the text is made by run, once the step is over.

#![tactic(auto)]

ghost use Rattle.std.specs.Prelude.{true, ◌≤◌, length};
ghost use Rattle.table.specs.Answers as Answers;
ghost use Rattle.report.specs.Report.{Printed, most_text};
ghost use Rattle.told.specs.Text.{tells_of, row_text, PrintableRow, told_text, CanTell};

use blocks::Refused;
use nodes::NodeNumber;
use report::Divided;
use table::{Answer, Row};

// Nothing, where a ring waits for its chain or the input has ended; a ring's number and answer, with the nodes that were
// listed before it; or a refused block. A ring's cells stand beside it in a list that the caller lends.
#[derive(Clone, Copy)]
pub enum Told {
    Nothing,
    Ring {
        ring: u64,
        used: usize,
        answer: Answer,
    },
    Block(Refused),
}

// The lines of a ring by its answer.
#[tactic(auto, unfolding(crate::specs::Text::row_text))]
fn print_answer(
    text: &mut [u8],
    ring: u64,
    used: usize,
    answer: Answer,
    cells: &[NodeNumber],
) -> usize
    requires { PrintableRow used (Answers.values answer) cells.now × (length cells.now ≤ 496) × (most_text ≤ length text.old) }
    ensures { Printed true text.old (row_text ring used (Answers.values answer) cells.now) result text.new }
{
    match answer {
        Answer::Divided {
            corners,
            cuts,
            turned,
            area,
            nodes,
            cells: count,
            ..
        } => {
            // Kept: no From: it would be one of a tuple, in report, which would have to know the answers of table.
            let row = Divided {
                ring,
                corners: corners as u64,
                cuts: cuts as u64,
                turned,
                area,
                nodes: nodes as u64,
                added: (nodes - used) as u64,
            };
            report::print_ring(text, row, &cells[..count * 4])
        }
        Answer::Refused { .. } | Answer::Failed { .. } => {
            let row = Row::from(answer);
            report::print_refused_ring(text, ring, row.code, row.corners, row.k)
        }
    }
}

// The text of what was told, from the front of the list on; answers how many bytes it has.
#[tactic(auto, using(crate::proofs::Rows::no_text), unfolding(crate::specs::Text::told_text))]
pub fn print(told: Told, cells: &[NodeNumber], text: &mut [u8]) -> usize
    requires { CanTell (tells_of told) cells.now × (most_text ≤ length text.old) }
    ensures { Printed true text.old (told_text (tells_of told) cells.now) result text.new }
{
    match told {
        Told::Nothing => 0,
        Told::Ring { ring, used, answer } => print_answer(text, ring, used, answer, cells),
        Told::Block(refused) => report::print_refused_block(
            text,
            u64::from(refused.block),
            u64::from(refused.why),
        ),
    }
}
