// Points: those of a ring or a chain, as places of a picture.

ghost use Rattle.std.specs.Prelude.{◌≡◌, ◌≤◌, ◌<◌};
ghost use Rattle.scene.specs.Scene.{point_spot, label};

use crate::Spot;

// The points of a ring or a chain: the first `count` of a list, x and y in turn.
// Kept: a list and a count, since a ring of no points has its label at the list's first place, which no slice of them has.
#[derive(Clone, Copy)]
pub struct Points<'a> {
    pub list: &'a [i32],
    pub count: usize,
    pub ghost few: { count ≤ 60 },
}

impl Points<'_> {
    // Point i as a place.
    pub(crate) fn spot(&self, i: usize) -> Spot
        requires { i < 60 }
        ensures { (result ≡ point_spot self.now.list.now i) × (result.x ≤ 30240001) × (result.y ≤ 30240001) }
    {
        Spot {
            x: svg::point_place(self.list, i * 2),
            y: svg::point_place(self.list, i * 2 + 1),
        }
    }

    // Halfway between the first point and the one half round.
    pub(crate) fn label(&self) -> Spot
        ensures { result ≡ label self.now.list.now self.now.count }
    {
        let first = self.spot(0);
        let half = self.spot(self.count / 2);
        Spot {
            x: (first.x + half.x) / 2,
            y: (first.y + half.y) / 2,
        }
    }
}
