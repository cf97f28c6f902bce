// Divide: the program. Job blocks on standard input, the printed lines on standard output.
//
// The run is proved in job and run: `printed`, in crates/job/specs/Run.antt, says what comes out for every input. Where
// writing fails, the run ends there and says so on standard error.

#![tactic(auto)]

fn main(rt: HostRuntime) {
    if run::run(&mut rt.stdin(), &mut rt.stdout()).is_err() {
        let _ = stream::write_all(&mut rt.stderr(), b"divide: standard output failed\n");
    }
}
