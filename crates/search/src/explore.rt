// Points are visited, one after the other, until the stop.
ghost use Rattle.std.specs.Prelude.{◌≡◌, ◌<◌, ◌≤◌, true, length};
ghost use Rattle.search.specs.Line.{waits};
ghost use Rattle.search.specs.Seen.{key_of, Visited, Explored, goes_on, IsFresh};

use crate::line;
use crate::see::{Front, Mark};
use space::id_of;

impl Front<'_> {
    // The point x, which waits, goes on the trail, and all points with an edge from x become seen.
    // Stays: the clause `asked`, as at `see`.
    fn visit(&mut self, x: usize)
        requires { (x < self.old.asked.points.set.n) × (waits self.old.marks x ≡ true) }
        ensures asked { self.new.asked ≡ self.old.asked }
        ensures visited { Visited self.old.asked.points.set.n self.old.asked.table.now self.old.asked.threshold x
            self.old.marks self.new.marks self.new.line.items self.new.from }
    {
        self.marks[x] = Mark::Walked;
        let n = self.asked.points.set.n;
        let at = x * n;
        let end = at + n;
        let table = self.asked.table;
        self.follow(&table[at..end]);
        let from = self.from;
        self.from = line::first_open(&self.line, &self.marks, from);
    }

    // Whether the search goes on: a point waits, and fewer than `width` seen points come before it.
    fn goes_on(&self, width: usize) -> bool
        ensures { result ≡ goes_on (length self.now.line.items) self.now.from width }
    {
        self.from < self.line.len() && self.from < width
    }

    // Visits up to the stop, from the points that are seen and wait at entry. The trail goes to the front of its buffer. Returns how many points are on it.
    pub(crate) fn explore(&mut self, width: usize, trail: &mut [u16]) -> usize
        requires fresh { IsFresh self.old.marks }
        requires room { self.old.asked.points.set.n ≤ length trail.old }
        ensures { Explored self.old.asked.points.set.n (key_of self.old.asked) self.old.asked.table.now self.old.asked.threshold width
            self.old.marks trail.old self.new.line.items trail.new result }
    {
        let mut walked = 0;
        // Stays: a `for` over the places of the trail is no plainer, since the stop is a test that mostly comes before they end.
        while self.goes_on(width) {
            let from = self.from;
            let x = id_of(self.line[from]);
            trail[walked] = x;
            self.visit(usize::from(x));
            walked += 1;
        }
        walked
    }
}
