// Reserves: a program that prints the reserve sheet for studio staff, docs/RESERVES.md, from the same rows that the divider
// reads. It stands beside the way of a ring.

#![tactic(auto)]

ghost use Rattle.std.specs.Prelude.{◌≤◌};

use std::io::Write;

fn row<W: Write>(output: &mut W, r: usize)
    requires { (3 ≤ r) × (r ≤ 60) }
{
    let places = reserve::places_for(32, r);
    let _ = write!(output, "| {r} | {} | {} |\n", places.nodes, places.cells);
}

fn main(rt: HostRuntime) {
    let mut output = rt.stdout();
    let _ = write!(
        output,
        "# Reserve sheet\n\n\
            The free places of the node list and of the cell list that a ring asks for, by its number of points, at 32 cuts.\n\n\
            | points | node places | cell places |\n|---:|---:|---:|\n"
    );
    for r in 3usize..=60 {
        row(&mut output, r);
    }
}
