// Jobs: runs the jobs of data/ one after the other and prints each one's name and what `divide` prints of it: refusals 9 to
// 11 in every way, empty input, areas at and beside a half, diagonals over a third corner, input that cannot be read, and an
// output that fails.
//
// It shares the run with divide, so that the gate sees more inputs than one. docs/REPLAY.md says how the files were made.

#![tactic(auto)]

use std::fs;
use std::fs::File;
use std::io::Write;
use std::rt::Files;

// The jobs, in their order, and last what cannot be read.
const JOBS: [&str; 19] = [
    "whole.job",
    "empty.job",
    "one-byte.job",
    "torn-ring.job",
    "torn-chain.job",
    "missing-chain.job",
    "missing-later-chain.job",
    "torn-before-check.job",
    "check.job",
    "check-before-kind.job",
    "kind.job",
    "count.job",
    "number.job",
    "unused-point.job",
    "size-of-chain.job",
    "zeros.job",
    "rounding.job",
    "third.job",
    ".",
];

fn job<F: Files, W: Write, E: Write>(files: &F, output: &mut W, errors: &mut E, path: &str) {
    match fs::open(files, path) {
        Ok(mut file) => {
            let _ = write!(output, "{path}\n");
            let _ = run::run(&mut file, output);
        }
        Err(error) => stream::fail(errors, path, error),
    }
}

// A file that is open for reading takes no text.
fn unwritten<F: Files<File = File>, W: Write, E: Write>(
    files: &F,
    output: &mut W,
    errors: &mut E,
    path: &str,
) {
    match fs::open(files, path) {
        Ok(file) => {
            let sent = run::run(&mut &file, &mut &file);
            let _ = write!(output, "{path}");
            if sent.is_err() {
                let _ = write!(output, ", read only: writing failed\n");
            }
        }
        Err(error) => stream::fail(errors, path, error),
    }
}

fn main(rt: HostRuntime) {
    let mut output = rt.stdout();
    let mut errors = rt.stderr();
    for path in JOBS {
        job(&rt, &mut output, &mut errors, path);
    }
    unwritten(&rt, &mut output, &mut errors, "whole.job");
}
