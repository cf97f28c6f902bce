// Table: the row that every call returns, and the number in it.
//
// It stands below the definitions of the call and below all that runs one, so that each of them names the same row and the
// same numbers. specs/Answers has the row of each answer, specs/Refusals how a call comes to its number.

#![tactic(auto)]

ghost use Rattle.std.specs.Prelude.{◌≡◌};
ghost use Rattle.table.specs.Answers as Answers;

// What a ring is refused for, each with its number in the table. A ring with a piece that has a failing cell, 8, is an
// answer of its own.
#[derive(Clone, Copy, PartialEq, Eq)]
pub enum Refusal {
    Counts = 1,
    Units = 2,
    Lists = 3,
    Room = 4,
    UnderThree = 5,
    NotSimple = 6,
    NoArea = 7,
    Marks = 13,
    Outline = 14,
    Limits = 15,
    Practice = 16,
}

impl From<Refusal> for u64 {
    ghost from_gives = { λ r n. n ≡ Answers.number_of r };

    fn from(r: Refusal) -> u64 {
        r as u64
    }
}

// A ring that was divided; one that was refused; or one with a piece that has a failing cell.
#[derive(Clone, Copy)]
pub enum Answer {
    Divided {
        corners: usize,
        marked: usize,
        cuts: usize,
        pieces: usize,
        turned: u64,
        area: u64,
        nodes: usize,
        cells: usize,
    },
    Refused {
        why: Refusal,
        nodes: usize,
        cells: usize,
    },
    Failed {
        corners: usize,
        k: usize,
        nodes: usize,
        cells: usize,
    },
}

// A row of the table: the number, and every value that it may have.
// Kept: each is a u64, the number too, since C reads the row.
#[repr(C)]
#[derive(Clone, Copy, Default)]
pub struct Row {
    pub code: u64,
    pub corners: u64,
    pub k: u64,
    pub marked: u64,
    pub cuts: u64,
    pub pieces: u64,
    pub turned: u64,
    pub area: u64,
    pub nodes: u64,
    pub cells: u64,
}

// The row of an answer: zeros for what it does not have.
impl From<Answer> for Row {
    ghost from_gives = { λ a row. row ≡ Answers.values a };

    fn from(a: Answer) -> Row {
        match a {
            Answer::Divided {
                corners,
                marked,
                cuts,
                pieces,
                turned,
                area,
                nodes,
                cells,
            } => Row {
                corners: corners as u64,
                marked: marked as u64,
                cuts: cuts as u64,
                pieces: pieces as u64,
                turned: turned,
                area: area,
                nodes: nodes as u64,
                cells: cells as u64,
                ..Row::default()
            },
            Answer::Refused { why, nodes, cells } => Row {
                code: u64::from(why),
                nodes: nodes as u64,
                cells: cells as u64,
                ..Row::default()
            },
            Answer::Failed {
                corners,
                k,
                nodes,
                cells,
            } => Row {
                code: 8,
                corners: corners as u64,
                k: k as u64,
                nodes: nodes as u64,
                cells: cells as u64,
                ..Row::default()
            },
        }
    }
}
