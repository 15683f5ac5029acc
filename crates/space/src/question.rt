// What a search and a walk are asked of: a set, its table at a threshold, and a query.
ghost use Rattle.std.specs.Prelude.{◌≡◌, ◌≤◌, ◌<◌, ◌*◌, length, IfOk, OnOk};
ghost use Rattle.rules.specs.Points.{away};
ghost use Rattle.rules.specs.Order.{keyed};
ghost use Rattle.rules.specs.Refusals.{start_refusal};
ghost use Rattle.space.specs.Told.{number_in};

use crate::refusal::Refusal;
use crate::set::{Points, Set};
use crate::{distance, start_refusal};

// As it is lent, whatever the lengths are.
#[derive(Clone, Copy)]
pub struct Question<'a> {
    pub set: Set<'a>,
    pub table: &'a [u16],
    pub query: &'a [i8],
    pub threshold: u16,
}

// A question that is not refused. It stays beside the other, field by field: its set is one that is not refused, by its type, which a question inside would not
// say.
#[derive(Clone, Copy)]
pub struct Asked<'a> {
    pub points: Points<'a>,
    pub table: &'a [u16],
    pub query: &'a [i8],
    pub threshold: u16,
    pub ghost table_is: { length table.now ≡ points.set.n * points.set.n },
    pub ghost query_is: { length query.now ≡ points.set.d },
}

impl<'a> Question<'a> {
    // Refusals 1 to 6, of which the last is that of an id to start from; where there is none, the question as one that is not refused.
    pub fn check(&self, start: usize) -> Result<Asked<'a>, Refusal>
        ensures refusal { number_in result
            ≡ start_refusal self.now.set.n self.now.set.d (length self.now.set.vectors.now) (length self.now.table.now) (length self.now.query.now) start }
        ensures start { OnOk result (start < self.now.set.n) }
        ensures set { IfOk result (λ asked. asked.points.set ≡ self.now.set) }
        ensures table { IfOk result (λ asked. asked.table ≡ self.now.table) }
        ensures query { IfOk result (λ asked. asked.query ≡ self.now.query) }
        ensures threshold { IfOk result (λ asked. asked.threshold ≡ self.now.threshold) }
    {
        let set = self.set;
        start_refusal(
            set.n,
            set.d,
            set.vectors.len(),
            self.table.len(),
            self.query.len(),
            start,
        )?;
        Ok(Asked {
            points: Points { set },
            table: self.table,
            query: self.query,
            threshold: self.threshold,
        })
    }
}

impl Asked<'_> {
    // D from the query to a point; 0 where there is no such point, so that no caller has to show that there is.
    pub fn away(&self, id: usize) -> u32
        ensures value { result ≡ away self.now.points.set.d self.now.points.set.vectors.now self.now.query.now id }
        ensures bounded { result ≤ 4161600 }
    {
        distance(self.points.coordinates(id), self.query)
    }

    // The key of a point, D × 128 + id: the order of keys is the order from the query.
    pub fn key(&self, id: u8) -> u32
        ensures { result ≡ keyed (away self.now.points.set.d self.now.points.set.vectors.now self.now.query.now) id }
    {
        self.away(usize::from(id)) * 128 + u32::from(id)
    }
}
