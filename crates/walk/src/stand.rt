// Where a walk stands, and where a step moves to from there, by the keys of the points. A key is D × 128 + id, so that its order is the order from the query.
ghost use Rattle.std.specs.Prelude.{◌≡◌, cond, ◌*◌, ◌<◌, ◌≤◌, min, MatchOption, IfSome, IfOk};
ghost use Rattle.std.proofs.Math.Option.{none, some};
ghost use Rattle.rules.specs.Order.{keyed};
ghost use Rattle.space.specs.Told.{number_in};
ghost use Rattle.walk.specs.Asked.{question_of, refused_at, D, edge, goes};
ghost use Rattle.walk.specs.Least.{least};

use space::{Asked, Question, Refusal, distance_of, id_of};

// A walk stands at a point of a question that is not refused; its D is known.
#[derive(Clone, Copy)]
pub(crate) struct Stand<'a> {
    pub(crate) asked: Asked<'a>,
    pub(crate) current: u16,
    pub(crate) distance: u32,
    pub(crate) ghost inside: { current < asked.points.set.n },
    pub(crate) ghost far: { distance ≡ D (question_of asked) current },
    pub(crate) ghost bounded: { distance ≤ 4161600 },
}

impl<'a> Stand<'a> {
    // Refusals 1 to 6, then 9; where there is none, the walk stands at the id.
    pub(crate) fn check(question: &Question<'a>, id: u16) -> Result<Stand<'a>, Refusal>
        ensures refusal { number_in result ≡ refused_at question.now id }
        ensures same { IfOk result (λ stand. question_of stand.asked ≡ question.now) }
        ensures start { IfOk result (λ stand. stand.current ≡ id) }
    {
        let asked = question.check(usize::from(id))?;
        if 32767 < question.threshold {
            return Err(Refusal::Threshold);
        }
        let distance = asked.away(usize::from(id));
        Ok(Stand {
            asked,
            current: id,
            distance,
        })
    }

    // Stays, here and below: the bound on the id; a type for it would have to say of which set.
    fn is_edge(&self, id: usize) -> bool
        requires { id < self.now.asked.points.set.n }
        ensures { result ≡ edge (question_of self.now.asked) self.now.current id }
    {
        let current = usize::from(self.current);
        let asked = &self.asked;
        current != id && asked.table[current * asked.points.set.n + id] <= asked.threshold
    }

    // The key of an id, if there is an edge to it from here and it is smaller than the best so far; or the best so far.
    fn better(&self, id: usize, best: u32) -> u32
        requires { id < self.now.asked.points.set.n }
        ensures { result ≡ cond (edge (question_of self.now.asked) self.now.current id) (min (keyed (D (question_of self.now.asked)) id) best) best }
    {
        if self.is_edge(id) {
            // An id is below n, which is at most 128.
            return self.asked.key(id as u8).min(best);
        }
        best
    }

    // The least key of the points with an edge from here, where it is nearer than here; or D × 128 of here.
    // Stays: a scan that starts at its limit makes "first in order" and "strictly nearer" one comparison; an Option would need a second one.
    fn least_key(&self) -> u32
        ensures { result
            ≡ least (keyed (D (question_of self.now.asked))) (edge (question_of self.now.asked) self.now.current) (self.now.distance * 128) self.now.asked.points.set.n }
    {
        let mut best = self.distance * 128;
        for id in 0..self.asked.points.set.n {
            best = self.better(id, best);
        }
        best
    }

    // Where a step moves to from here; none where the walk is at its end.
    pub(crate) fn nearer(&self) -> Option<Stand<'a>>
        ensures moves { let q = question_of self.now.asked in
            MatchOption result (goes q self.now.current ≡ none) (λ next. goes q self.now.current ≡ some next.current) }
        ensures same { IfSome result (λ next. next.asked ≡ self.now.asked) }
        ensures nearer { IfSome result (λ next. next.distance < self.now.distance) }
    {
        let key = self.least_key();
        let distance = distance_of(key);
        if self.distance <= distance {
            return None;
        }
        Some(Stand {
            asked: self.asked,
            current: id_of(key),
            distance,
        })
    }
}
