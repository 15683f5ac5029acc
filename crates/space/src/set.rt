// A set of points as it is lent, and one that is not refused.
ghost use Rattle.std.specs.Prelude.{◌≡◌, ◌≤◌, length, take, IfOk};
ghost use Rattle.rules.specs.Points.{dist, coordinates, apart};
ghost use Rattle.rules.specs.Refusals.{set_refusal, point_refusal};
ghost use Rattle.rules.specs.Entries.{point_of};
ghost use Rattle.space.specs.Told.{number_in};

use crate::refusal::Refusal;
use crate::{distance, set_refusal};

// n points of d coordinates each, one point after the other, whatever the lengths are.
#[derive(Clone, Copy)]
pub struct Set<'a> {
    pub n: usize,
    pub d: usize,
    pub vectors: &'a [i8],
}

// A set that is not refused.
#[derive(Clone, Copy)]
pub struct Points<'a> {
    pub set: Set<'a>,
    pub ghost given: { set_refusal set.n set.d (length set.vectors.now) ≡ 0 },
}

impl<'a> Set<'a> {
    // Refusals 1, 2 and 3; where there is none, the set as one that is not refused.
    pub fn check(&self) -> Result<Points<'a>, Refusal>
        ensures refusal { number_in result ≡ set_refusal self.now.n self.now.d (length self.now.vectors.now) }
        ensures same { IfOk result (λ points. points.set ≡ self.now) }
    {
        set_refusal(self.n, self.d, self.vectors.len())?;
        Ok(Points { set: *self })
    }

    // The refusal of `point` for the same input: 1, 2, 3, 6.
    pub fn point_refusal(&self, id: usize) -> Result<(), Refusal>
        ensures { number_in result ≡ point_refusal self.now.n self.now.d (length self.now.vectors.now) id }
    {
        self.check()?;
        if self.n <= id {
            return Err(Refusal::Id);
        }
        Ok(())
    }

    // The coordinates of one point, as that part of the lent vectors; an empty part where the point is refused, and no `Result`: the point's part is
    // defined for all input (`point_of`), and its refusal is the answer of another entry.
    pub fn point(&self, id: usize) -> &'a [i8]
        ensures { result.now ≡ point_of self.now.n self.now.d self.now.vectors.now id }
    {
        match self.check() {
            Ok(points) => points.coordinates(id),
            Err(_) => &self.vectors[..0],
        }
    }

    // D from a query to the point of an id.
    pub fn measure(&self, id: usize, query: &[i8]) -> u32
        ensures value { result ≡ dist (take 64 (point_of self.now.n self.now.d self.now.vectors.now id)) (take 64 query.now) }
        ensures bounded { result ≤ 4161600 }
    {
        distance(self.point(id), query)
    }
}

impl<'a> Points<'a> {
    // The coordinates of one point; an empty part where there is no such point, so that no caller has to show that there is.
    pub fn coordinates(&self, id: usize) -> &'a [i8]
        ensures { result.now ≡ coordinates self.now.set.d self.now.set.vectors.now id }
    {
        let set = self.set;
        if set.n <= id {
            return &set.vectors[..0];
        }
        let at = id * set.d;
        let end = at + set.d;
        &set.vectors[at..end]
    }

    // D between two points.
    pub fn apart(&self, u: usize, v: usize) -> u32
        ensures value { result ≡ apart self.now.set.d self.now.set.vectors.now u v }
        ensures bounded { result ≤ 4161600 }
    {
        distance(self.coordinates(u), self.coordinates(v))
    }
}
