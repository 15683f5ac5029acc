// A row of the table is followed: the points with an edge in it become seen. Only the cells of ids that may not be seen yet are read; these stand on a
// list, in no order, that a point leaves when it is reached. Late in a search the list is short, and so is following a row.
ghost use Rattle.std.specs.Prelude.{◌≡◌, ◌<◌, length};
ghost use Rattle.search.specs.Rest.{Reached};
ghost use Rattle.search.specs.Seen.{Marked};

use crate::see::Front;

impl Front<'_> {
    // The point at place i of the list has an edge: it becomes seen, unless it is, and leaves the list, where the last one takes its place.
    // Stays: the clause `asked`, as at `see`, and the exchange by hand, since the list is an array (figures there).
    fn reach(&mut self, i: usize)
        requires { i < self.old.rest_length }
        ensures asked { self.new.asked ≡ self.old.asked }
        ensures reached { Reached self.old.marks self.old.rest i self.old.rest_length self.new.marks self.new.rest self.new.rest_length }
    {
        let id = self.rest[i];
        self.see(id);
        let last = self.rest_length - 1;
        self.rest[i] = self.rest[last];
        self.rest_length = last;
    }

    // All points with an edge in a row become seen. Stays: a `while` from the list's front, with the place by hand, since the list gets shorter on the way. Where
    // points stand in order from the query and the nearer half of the list or fewer are reached, they come to the line in that order and none has to move there;
    // from the list's end each would move all before it, and a search took up to twice the time.
    // Stays: the clause `asked`, as at `see`.
    pub(crate) fn follow(&mut self, row: &[u16])
        requires { length row.now ≡ self.old.asked.points.set.n }
        ensures asked { self.new.asked ≡ self.old.asked }
        ensures marked { Marked self.old.asked.points.set.n row.now self.old.asked.threshold self.old.marks self.new.marks }
    {
        let threshold = self.asked.threshold;
        let mut i = 0;
        while i < self.rest_length {
            let id = usize::from(self.rest[i]);
            if row[id] <= threshold {
                self.reach(i);
            } else {
                i += 1;
            }
        }
    }
}
