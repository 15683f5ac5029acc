// The search of document 01: explore from the start, then take the first k.
#![tactic(auto)]

ghost use Rattle.std.specs.Prelude.{◌≡◌, ◌≤◌, map, length, [], ◌∷◌};
ghost use Rattle.rules.specs.Outcome.{over, first_of};
ghost use Rattle.rules.specs.Refusals.{refuse7, refuse8, refuse9, refuse10};
ghost use Rattle.rules.specs.Entries.{search_answer, ids_after, distances_after, trail_after};
ghost use Rattle.space.specs.Told.{number_in};
ghost use Rattle.search.specs.Answer.{asked, told, id_of, distance_of};

use see::Front;
use space::{Question, Refusal, is_outside};

mod explore;
mod follow;
mod line;
mod see;

// What a search is asked: a question, the id to start from, the width and how many points to find.
#[derive(Clone, Copy)]
pub struct Ask<'a> {
    pub question: Question<'a>,
    pub start: u16,
    pub width: u16,
    pub k: u16,
}

// How many points were found, seen and walked.
#[derive(Clone, Copy)]
pub struct Counts {
    pub found: usize,
    pub seen: usize,
    pub walked: usize,
}

impl Ask<'_> {
    // Refusals 7 to 10, by the three lengths of the buffers, as `refuse10` speaks of them.
    fn rest_refusal(&self, ids: usize, distances: usize, trail: usize) -> Result<(), Refusal>
        ensures { number_in result ≡ first_of (refuse7 self.now.width ∷ refuse8 self.now.width self.now.k ∷ refuse9 self.now.question.threshold
            ∷ refuse10 self.now.question.set.n self.now.k ids distances trail ∷ []) }
    {
        let width = usize::from(self.width);
        let k = usize::from(self.k);
        if is_outside(1, 128, width) {
            return Err(Refusal::Width);
        }
        if is_outside(1, width, k) {
            return Err(Refusal::Count);
        }
        if 32767 < self.question.threshold {
            return Err(Refusal::Threshold);
        }
        if ids < k || distances < k || trail < self.question.set.n {
            return Err(Refusal::Room);
        }
        Ok(())
    }
}

// The points of a line, as ids and squared distances.
// Stays: ids and distances are two buffers, since C lends two.
fn answer(line: &[u32], ids: &mut [u16], distances: &mut [u32])
    requires { (length line.now ≤ length ids.old) × (length line.now ≤ length distances.old) }
    ensures ids { ids.new ≡ over (map id_of line.now) ids.old }
    ensures distances { distances.new ≡ over (map distance_of line.now) distances.old }
{
    for (i, key) in line.iter().enumerate() {
        ids[i] = space::id_of(*key);
        distances[i] = space::distance_of(*key);
    }
}

// Searches the lent table from the ask's start at its threshold. Where nothing is refused, ids and squared distances of the points found go to the front of
// their buffers in order from the query, and the trail to the front of its own; the cells past them keep what they held.
// Stays: ids and distances are two buffers, since C lends two.
pub fn search(
    ask: &Ask<'_>,
    ids: &mut [u16],
    distances: &mut [u32],
    trail: &mut [u16],
) -> Result<Counts, Refusal>
    ensures answer { told result ≡ search_answer (asked ask.now) ids.old distances.old trail.old }
    ensures ids { ids.new ≡ ids_after (asked ask.now) ids.old distances.old trail.old }
    ensures distances { distances.new ≡ distances_after (asked ask.now) ids.old distances.old trail.old }
    ensures trail { trail.new ≡ trail_after (asked ask.now) ids.old distances.old trail.old }
{
    let question = ask.question.check(usize::from(ask.start))?;
    ask.rest_refusal(ids.len(), distances.len(), trail.len())?;
    let mut front = Front::new(question);
    // A start that is not refused is below n, so at most 127, and the cast loses nothing: `try_from` and `unwrap` would say the same longer.
    front.see(ask.start as u8);
    let walked = front.explore(usize::from(ask.width), trail);
    let seen = front.line.len();
    let found = usize::from(ask.k).min(seen);
    answer(&front.line[..found], ids, distances);
    Ok(Counts {
        found,
        seen,
        walked,
    })
}
