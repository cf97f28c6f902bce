// Reserve: the free places that a ring asks for before it is divided, by its count of points and the most cuts.
//
// It stands below the definitions of the call, beside the table of refusals: refusal 4 and the places that an 8 leaves zero
// read it. At 32 cuts the places are read from the printed reserve sheet, and for any other number of cuts worked out;
// proofs/Rows shows that the sheet has what would be worked out.

#![tactic(auto)]

ghost use Rattle.std.specs.Prelude.{◌≡◌, ◌≤◌};
ghost use Rattle.reserve.specs.Reserve as Reserve;

// The printed reserve sheet: a row for each ring count from 3 to 60, its node places and its cell places.
const SHEET: [(u8, u8); 58] = [
    (10, 3),
    (15, 6),
    (20, 9),
    (25, 12),
    (30, 15),
    (35, 18),
    (40, 21),
    (45, 24),
    (50, 27),
    (55, 30),
    (60, 33),
    (65, 36),
    (70, 39),
    (75, 42),
    (80, 45),
    (85, 48),
    (90, 51),
    (95, 54),
    (100, 57),
    (105, 60),
    (110, 63),
    (115, 66),
    (120, 69),
    (125, 72),
    (130, 75),
    (135, 78),
    (140, 81),
    (145, 84),
    (150, 87),
    (155, 90),
    (160, 93),
    (165, 96),
    (170, 99),
    (173, 100),
    (176, 101),
    (179, 102),
    (182, 103),
    (185, 104),
    (188, 105),
    (191, 106),
    (194, 107),
    (197, 108),
    (200, 109),
    (203, 110),
    (206, 111),
    (209, 112),
    (212, 113),
    (215, 114),
    (218, 115),
    (221, 116),
    (224, 117),
    (227, 118),
    (230, 119),
    (233, 120),
    (236, 121),
    (239, 122),
    (242, 123),
    (245, 124),
];

// The places of nodes and of cells that a ring may take.
#[derive(Clone, Copy, PartialEq, Eq)]
pub struct FreePlaces {
    pub nodes: usize,
    pub cells: usize,
}

// Those of a ring of r points: by the sheet at 32 cuts, and worked out otherwise.
pub fn places_for(cuts: usize, r: usize) -> FreePlaces
    requires { (3 ≤ r) × (r ≤ 60) }
    ensures nodes { result.nodes ≡ Reserve.node_places cuts r }
    ensures cells { result.cells ≡ Reserve.cell_places cuts r }
{
    if cuts == 32 {
        let (nodes, cells) = SHEET[r - 3];
        return FreePlaces {
            nodes: usize::from(nodes),
            cells: usize::from(cells),
        };
    }
    let most = cuts.min(r - 3);
    FreePlaces {
        nodes: 3 * r + 2 * most + 1,
        cells: r + 2 * most,
    }
}
