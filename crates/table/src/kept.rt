// D of each two ids of a set, summed once for both ways and kept while the table is built.
ghost use Rattle.std.specs.Prelude.{◌≡◌, ◌*◌, ◌<◌, length};
ghost use Rattle.rules.specs.Points.{apart};
ghost use Rattle.table.specs.Kept.{far, Mutual, Filled};

use space::Points;

// How many distances there are for 128 points.
pub(crate) const PLACES: usize = 16384;

// D(u,v) stands at 128 × u + v, and n beside: nothing in the library allocates, so the distances of any n stand in an array for 128 points. It stays flat, as
// the label table is, whose cell of u and v document 01 counts in the same way.
#[derive(Drop)]
pub(crate) struct Distances {
    pub(crate) cells: [u32; PLACES],
    pub(crate) n: usize,
    ghost long: { length cells ≡ 16384 },
    ghost both_ways: { Mutual (far cells) n },
}

impl Distances {
    // D of each two ids, put there in place. Handed over by value, the cells would be copied, and would take their room on the stack twice.
    pub(crate) fn fill(&mut self, points: &Points)
        requires { self.old.n ≡ points.now.set.n }
        ensures same_n { self.new.n ≡ self.old.n }
        ensures filled { Filled (apart points.now.set.d points.now.set.vectors.now) points.now.set.n self.new.cells }
    {
        for u in 0..self.n {
            for v in 0..u + 1 {
                let x = points.apart(u, v);
                self.cells[u * 128 + v] = x;
                self.cells[v * 128 + u] = x;
            }
        }
    }

    // D(u,v). Stays: the bound on u and v. An id is a plain number here, as in the table's cells, and the index needs no more than this of it.
    #[tactic(auto, unfolding(crate::specs::Kept::far))]
    pub(crate) fn between(&self, u: usize, v: usize) -> u32
        requires { (u < 128) × (v < 128) }
        ensures { result ≡ far self.now.cells u v }
    {
        self.cells[u * 128 + v]
    }
}
