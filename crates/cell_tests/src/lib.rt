// Cell tests: whether a cell's corners all turn left and its four numbers differ, and the first cell of a piece that fails.
//
// It stands under Cells: an attempt at a piece lists its nodes, lays its cells, and asks here whether they hold. The
// definitions are those of Quads.

#![tactic(auto)]

ghost use Rattle.std.specs.Prelude.{◌≡◌, not, ◌*◌, ◌≤◌, ◌<◌, length, get_or};
ghost use Rattle.laws.specs.Bounded.{first, below};
ghost use Rattle.nodes.specs.Flat.{nodes_in};
ghost use Rattle.quads.specs.Quads as Quads;
ghost use Rattle.quads.specs.Quads.{no_cell};
ghost use Rattle.quads.specs.Flat.{Listed, positive};
ghost use Rattle.quads.specs.Round.{cells_of, ListedRound};

use quads::{Cell, Round};
use vector::Point;

// The corner at b turns left by more than 1.0e-15.
fn turns_left(a: Point, b: Point, c: Point) -> bool
    ensures { result ≡ Quads.turns_left a b c }
{
    let u = b.sub(a);
    let v = c.sub(b);
    !(u.cross(v) <= 1.0e-15)
}

fn quad_positive(p: Point, q: Point, r: Point, s: Point) -> bool
    ensures { result ≡ positive p q r s }
{
    turns_left(p, q, r) && turns_left(q, r, s) && turns_left(r, s, p) && turns_left(s, p, q)
}

#[tactic(auto, unfolding(quads::specs::Quads::all_distinct))]
fn all_distinct(c: Cell) -> bool
    ensures { result ≡ Quads.all_distinct c }
{
    c.a != c.b && c.a != c.c && c.a != c.d && c.b != c.c && c.b != c.d && c.c != c.d
}

// Whether a cell passes both tests.
#[tactic(auto, using(nodes::proofs::Flat::node_in), unfolding(quads::specs::Quads::holds, quads::specs::Quads::quad_positive))]
fn holds(nodes: &[f64], used: usize, c: Cell) -> bool
    requires { (used * 2 ≤ length nodes.now) × Listed used c }
    ensures { result ≡ Quads.holds (nodes_in nodes.now used) c }
{
    let p = quads::node_at(nodes, c.a);
    let q = quads::node_at(nodes, c.b);
    let r = quads::node_at(nodes, c.c);
    let s = quads::node_at(nodes, c.d);
    quad_positive(p, q, r, s) && all_distinct(c)
}

// The first of these cells that fails.
#[tactic(auto, unfolding(laws::specs::Bounded::first))]
pub fn first_failing(nodes: &[f64], used: usize, round: &Round<'_>) -> Option<usize>
    requires { (used * 2 ≤ length nodes.now) × ListedRound used round.now }
    ensures { result ≡ below (length round.now.middles.now) (first
        (λ k. not (Quads.holds (nodes_in nodes.now used) (get_or (cells_of round.now) k no_cell)))
        (length round.now.middles.now) 0) }
{
    (0..round.middles.len()).find(
        |&k|
            requires { (used * 2 ≤ length nodes.now) × ListedRound used round.now × (k < length round.now.middles.now) }
        { !holds(nodes, used, round.cell(k)) },
    )
}
