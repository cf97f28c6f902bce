// The lists that the calls of a file share, and the calls themselves, compared with a list that says what the Rust leaves.

ghost use Rattle.std.specs.Prelude.{◌≤◌};

use crate::called::{Asked, Entry};
use given_tests::Marking;
use std::io::Read;

// The lists of the calls that follow, and how much of them the calls are lent: the places for nodes, of which so many are
// used, and the places for rim marks.
// Kept: fixed memory has the lists at their greatest; what is lent of one is no length of what stands in it.
#[derive(Drop)]
pub struct Kept {
    nodes: [f64; 3072],
    rims: [u8; 1536],
    places: usize,
    used: usize,
    marks: usize,
}

impl Kept {
    // A rim mark that no call has written yet is 9.
    pub fn blank() -> Kept {
        Kept {
            nodes: [0.0; 3072],
            rims: [9; 1536],
            places: 0,
            used: 0,
            marks: 0,
        }
    }

    pub fn read<R: Read>(&mut self, input: &mut R) {
        self.places = words::count(input);
        self.used = words::count(input);
        self.marks = words::count(input);
        let listed = self.used.min(self.places);
        words::read_list(input, &mut self.nodes, listed.saturating_mul(2));
        words::read_packed(input, &mut self.rims, self.marks.min(listed));
    }

    // A call by a chain. What does not fit its list is left out, and shows as a difference.
    pub fn by_chain<R: Read>(&mut self, input: &mut R, entry: Entry) -> bool {
        let size = words::word(input);
        let cell_numbers = words::count_to(input, 2048);
        let cell_count = words::word(input) as usize;
        let r = words::count_to(input, 256);
        let c = words::count_to(input, 256);
        let mut ring = [0i32; 256];
        let mut chain = [0i32; 256];
        words::read_list(input, &mut ring, r);
        words::read_list(input, &mut chain, c);
        let asked = Asked::Chain {
            ring: &ring[..r],
            chain: &chain[..c],
            size,
        };
        self.compared(input, entry, asked, cell_numbers, cell_count)
    }

    // A call with given marks. What does not fit its list is left out, and shows as a difference.
    pub fn by_marks<R: Read>(&mut self, input: &mut R, entry: Entry) -> bool {
        let size = words::word(input);
        let cell_numbers = words::count_to(input, 2048);
        let cell_count = words::word(input) as usize;
        let r = words::count_to(input, 256);
        let k = words::count_to(input, 256);
        let t = words::count_to(input, 512);
        let o = words::count_to(input, 256);
        let l = words::count_to(input, 64);
        let mut ring = [0i32; 256];
        let mut kinds = [0u8; 256];
        let mut snaps = [0.0f64; 512];
        let mut outline = [0i32; 256];
        let mut loops = [0u32; 64];
        words::read_list(input, &mut ring, r);
        words::read_list(input, &mut kinds, k);
        words::read_list(input, &mut snaps, t);
        words::read_list(input, &mut outline, o);
        words::read_list(input, &mut loops, l);
        let marking = Marking {
            kinds: &kinds[..k],
            snaps: &snaps[..t],
            outline: &outline[..o],
            loops: &loops[..l],
        };
        let asked = Asked::Marks {
            ring: &ring[..r],
            marking,
            size,
        };
        self.compared(input, entry, asked, cell_numbers, cell_count)
    }

    // Runs a call and compares all that it leaves with the file.
    fn compared<R: Read>(
        &mut self,
        input: &mut R,
        entry: Entry,
        asked: Asked<'_>,
        cell_numbers: usize,
        cell_count: usize,
    ) -> bool
        requires { cell_numbers ≤ 2048 }
    {
        let used = self.used;
        let end = self.places.saturating_mul(2).min(3072);
        let stop = self.marks.min(1536);
        let mut nodes = self.nodes;
        let mut rims = self.rims;
        let mut cells = [65535u32; 2048];
        let v = entry.divide(
            asked,
            &mut nodes[..end],
            used,
            &mut rims[..stop],
            &mut cells[..cell_numbers],
            cell_count,
        );
        let same = expected::same_left(
            input,
            v,
            &nodes[..end],
            &self.nodes,
            used,
            &cells[..cell_numbers],
            &rims[..stop],
            &self.rims,
        );
        self.used = v.nodes as usize;
        self.nodes = nodes;
        self.rims = rims;
        same
    }
}
