// The lists of a program: how each is opened, gone through record by record, and told.

ghost use Rattle.std.specs.Prelude.{◌≡◌, ◌+◌, ◌%◌, ◌^◌, cond};

use std::fs;
use std::io::{Read, Write};
use std::ops::Add;
use std::rt::Files;

// How many calls and blocks were run, and on how many the two differ.
#[derive(Clone, Copy, Default)]
pub struct Tally {
    pub ran: u64,
    pub differ: u64,
}

impl Tally {
    // One more. Like all counts here it goes round at 2^64.
    pub fn ran(self, same: bool) -> Tally
        ensures { (result.ran ≡ (self.ran + 1) % 2 ^ 64) × (result.differ ≡ (self.differ + cond same 0 1) % 2 ^ 64) }
    {
        self + Tally {
            ran: 1,
            differ: u64::from(!same),
        }
    }

    // The name is that of what was run, and `how` what is said of how, if anything.
    pub fn print<W: Write>(self, output: &mut W, name: &str, how: &str) {
        let _ = write!(
            output,
            "{name}{how}: {} run, {} differ\n",
            self.ran, self.differ
        );
    }

    // Of a list whose rows are wrong on purpose: how many they are, and how many were told to differ.
    pub fn print_told<W: Write>(self, output: &mut W, name: &str, how: &str) {
        let _ = write!(
            output,
            "{name}{how}: {} wrong on purpose, {} told\n",
            self.ran, self.differ
        );
    }
}

impl Add for Tally {
    type Output = Tally;

    ghost add_gives = { λ a b t. (t.ran ≡ (a.ran + b.ran) % 2 ^ 64) × (t.differ ≡ (a.differ + b.differ) % 2 ^ 64) };

    fn add(self, b: Tally) -> Tally {
        Tally {
            ran: self.ran.wrapping_add(b.ran),
            differ: self.differ.wrapping_add(b.differ),
        }
    }
}

// A number that no record of a program has.
#[derive(Clone, Copy)]
pub struct UnknownKind;

// What a program does with the records of a list, each of which begins with the number of its kind.
pub trait Records: Drop {
    type Kind: TryFrom<u32, Error = UnknownKind>;

    // The tally of a list that cannot be opened: it counts as one that differs.
    const UNOPENED: Tally;

    // What is said behind a list's name of how it is run here; nothing, where a program runs its lists in one way.
    const HOW: &'static str;

    // Before the first record of a list.
    fn new() -> Self;

    // Runs a record, and says whether the two are the same; none where it has nothing to compare. No clause: what is read from a
    // file has no name to cite.
    fn run<R: Read>(&mut self, input: &mut R, kind: Self::Kind) -> Option<bool>;
}

// The number of the next record; none at the end of the list, which a zero is.
fn next<R: Read>(input: &mut R) -> Option<u32> {
    let number = crate::word(input);
    (number != 0).then_some(number)
}

// Runs the record of this number; one of no kind counts as one that differs.
fn record<P: Records, R: Read>(program: &mut P, input: &mut R, number: u32) -> Option<bool> {
    match P::Kind::try_from(number) {
        Ok(kind) => program.run(input, kind),
        Err(_) => Some(false),
    }
}

// All records of a list, which has fewer than a million.
fn through<P: Records, R: Read>(input: &mut R) -> Tally {
    let mut program = P::new();
    let mut t = Tally::default();
    for _ in 0u32..1000000 {
        let Some(number) = next(input) else {
            break;
        };
        if let Some(same) = record(&mut program, input, number) {
            t = t.ran(same);
        }
    }
    t
}

// Where a program runs its lists: the folder that they stand in, where it prints what it counted, and where what failed.
#[derive(Drop)]
pub struct Lists<'a, F, W, E> {
    pub files: &'a F,
    pub output: &'a mut W,
    pub errors: &'a mut E,
}

impl<F: Files, W: Write, E: Write> Lists<'_, F, W, E> {
    fn tally<P: Records>(&mut self, path: &str) -> Tally {
        match fs::open(self.files, path) {
            Ok(mut list) => through::<P, F::File>(&mut list),
            Err(error) => {
                stream::fail(self.errors, path, error);
                P::UNOPENED
            }
        }
    }

    // Runs a list, and prints its tally. No clause: it is counted over a file, which has no name to cite.
    pub fn run<P: Records>(&mut self, path: &str) -> Tally {
        let t = self.tally::<P>(path);
        t.print(self.output, path, P::HOW);
        t
    }

    // Runs a list whose rows are wrong on purpose. No clause, as for `run`.
    pub fn run_wrong<P: Records>(&mut self, path: &str) {
        let t = self.tally::<P>(path);
        t.print_told(self.output, path, P::HOW);
    }
}
