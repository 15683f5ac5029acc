// A point becomes seen.
ghost use Rattle.std.specs.Prelude.{◌≡◌, ◌<◌, replicate};
ghost use Rattle.search.specs.Rest.{Numbered, Rest, reached};
ghost use Rattle.search.specs.Seen.{key_of, Lined};

use crate::line;
use arrayvec::ArrayVec;
use space::Asked;
use std::array;

// A point is not seen, or it is seen and waits to go on the trail, or it is on it.
#[derive(Clone, Copy, PartialEq, Eq)]
pub(crate) enum Mark {
    Unseen,
    Waiting,
    Walked,
}

// How far the exploration of a question has come: each point's mark, the line of the seen points' keys, smallest first, a place of the line before which no
// point waits, and on a list, in no order, the ids that may not be seen yet.
#[derive(Drop)]
pub(crate) struct Front<'a> {
    pub(crate) asked: Asked<'a>,
    pub(crate) marks: [Mark; 128],
    pub(crate) line: ArrayVec<u32, 128>,
    pub(crate) from: usize,
    // Stays: an array with its length beside it; with an `ArrayVec` in its place a search took 12 to 35 % longer in the same run, and the bar is 5 %.
    pub(crate) rest: [u8; 128],
    pub(crate) rest_length: usize,
    pub(crate) ghost lined: { Lined asked.points.set.n (key_of asked) marks line.items from },
    pub(crate) ghost listed: { Rest asked.points.set.n marks rest rest_length },
}

// Every id, in order.
fn every_id() -> [u8; 128]
    ensures { Numbered 128 result }
{
    // An id is below 128, so that the cast loses nothing.
    array::from_fn(|id| id as u8)
}

impl<'a> Front<'a> {
    // Nothing is seen.
    pub(crate) fn new(asked: Asked<'a>) -> Self
        ensures asked { result.asked ≡ asked.entry }
        ensures marks { result.marks ≡ replicate 128 Mark.Unseen }
    {
        Front {
            asked,
            marks: [Mark::Unseen; 128],
            line: ArrayVec::new(),
            from: 0,
            rest: every_id(),
            rest_length: asked.points.set.n,
        }
    }

    // A point becomes seen, unless it is: its key goes into the line.
    // Stays: the clause `asked`; the ghost fields speak of the question, so each method has to say that it is the same. And the bound on the id: a type for it
    // would have to say of which set.
    pub(crate) fn see(&mut self, id: u8)
        requires { id < self.old.asked.points.set.n }
        ensures asked { self.new.asked ≡ self.old.asked }
        ensures marks { self.new.marks ≡ reached id self.old.marks }
        ensures rest { (self.new.rest ≡ self.old.rest) × (self.new.rest_length ≡ self.old.rest_length) }
    {
        let mark = self.marks[usize::from(id)];
        if mark != Mark::Unseen {
            return;
        }
        self.marks[usize::from(id)] = Mark::Waiting;
        let key = self.asked.key(id);
        // Stays: the key is pushed to make room, and `put` then moves it to its place (with `ArrayVec::insert`, figures at `line::shift`).
        self.line.push(key);
        let at = line::put(self.line.as_mut_slice(), key);
        self.from = at.min(self.from);
    }
}
