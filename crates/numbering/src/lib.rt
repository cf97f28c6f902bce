// Numbering: a point's number in the node list, and a new place for a point whose key is not listed.
//
// It stands under Cells: the corners, edge middles and means of all pieces get their numbers here. A point is looked for among
// the nodes that were collected of its ring's box, and among those that were added since (`search`).

#![tactic(auto)]

pub mod search;

ghost use Rattle.std.specs.Prelude.{◌≡◌, ◌*◌, ◌≤◌, length};
ghost use Rattle.nodes.specs.Nodes.{number, add_node};
ghost use Rattle.nodes.specs.Growth.{InRange};
ghost use Rattle.nodes.specs.Flat.{nodes_in, over, Usable, placed};
ghost use Rattle.nodes.specs.Nearby.{ValidCollected};
ghost use Rattle.laws.specs.Bounded.{below};

use keys::SoughtPoint;
use nodes::{Collected, NodeNumber, Placed};
use search::{Listed, Used};
use vector::Point;

// The first used place with p's key. Where the collected nodes decide, only these and the nodes after the first `old` places
// are looked at; else all are.
fn find_nearby(list: Used<'_>, p: Point, found: Collected<'_>) -> Option<usize>
    requires { InRange p × ValidCollected list.nodes.now list.used found }
    ensures { result ≡ below list.entry.used (number (nodes_in list.entry.nodes.now list.entry.used) p) }
{
    let near = found.near;
    let key = SoughtPoint::new(p.x, p.y);
    let mut from = 0;
    if near.decides(key.x, key.y) {
        let numbers = found.numbers;
        let listed = Listed {
            nodes: list.nodes,
            old: near.old,
            numbers,
            xs: found.xs,
            count: near.count,
        };
        if let Some(j) = search::find_from(listed, 0, key) {
            return Some(numbers[j] as usize);
        }
        from = near.old;
    }
    search::find_from(list, from, key)
}

// p's number: the first place with its key, or else a new place, where p is written.
pub fn add_node(nodes: &mut [f64], used: usize, p: Point, found: Collected<'_>) -> Placed
    requires { Usable nodes.old used × InRange p × (length (add_node (nodes_in nodes.old used) p) * 2 ≤ length nodes.old)
        × ValidCollected nodes.old used found }
    ensures { (result ≡ placed (nodes_in nodes.old used) p)
        × (nodes.new ≡ over nodes.old (add_node (nodes_in nodes.old used) p)) }
{
    if let Some(i) = find_nearby(Used { nodes, used }, p, found) {
        return Placed {
            number: i as NodeNumber,
            used,
        };
    }
    nodes[used * 2] = p.x;
    nodes[used * 2 + 1] = p.y;
    Placed {
        number: used as NodeNumber,
        used: used + 1,
    }
}
