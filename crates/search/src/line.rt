// The line: the keys of the seen points, D × 128 + id, smallest first.
ghost use Rattle.std.specs.Prelude.{◌≡◌, ◌-◌, ◌<◌, ◌≤◌, length};
ghost use Rattle.search.specs.Line.{Shifted, Put, Opened};

use crate::see::Mark;
use space::id_of;

// Moves those of the numbers before the last place that are larger than `key` up by one place, from the last one down. Returns the place that is free then.
// Stays: `partition_point` and `ArrayVec::insert` in place of this and of `put` made a search take 37 to 48 % longer in the same run; the bar is 5 %.
fn shift(line: &mut [u32], key: u32) -> usize
    requires { 0 < length line.old }
    ensures { Shifted line.old (length line.old - 1) key result line.new }
{
    for at in (1..line.len()).rev() {
        let x = line[at - 1];
        if x <= key {
            return at;
        }
        line[at] = x;
    }
    0
}

// Puts a key in its place among the numbers before the last place. Returns the place.
// Stays: by hand, as `shift` is and for its figures.
pub(crate) fn put(line: &mut [u32], key: u32) -> usize
    requires { 0 < length line.old }
    ensures { Put line.old (length line.old - 1) key result line.new }
{
    let at = shift(line, key);
    line[at] = key;
    at
}

// The first place from `from` on whose point waits to go on the trail; the line's end for none.
// Stays: the end stands for none, since `goes_on` asks for a place and a length: an `Option` would be turned back into that place.
pub(crate) fn first_open(line: &[u32], marks: &[Mark], from: usize) -> usize
    requires { (from ≤ length line.now) × (length marks.now ≡ 128) }
    ensures { Opened line.now marks.now (length line.now) from result }
{
    for at in from..line.len() {
        let id = usize::from(id_of(line[at]));
        if marks[id] == Mark::Waiting {
            return at;
        }
    }
    line.len()
}
