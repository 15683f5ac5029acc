// The search.
ghost use Rattle.std.specs.Prelude.{◌≡◌};
ghost use Rattle.rules.specs.Entries.{ask, search_answer, ids_after, distances_after, trail_after};
ghost use Rattle.cabi.specs.Plain.{number_of, cell_after};

use search::Ask;
use space::{Question, Set};

// A search of a table: ids, squared distances and trail in their buffers, and the three counts.
pub fn magpiehinge_search(
    n: usize,
    d: usize,
    vectors: &[i8],
    table: &[u16],
    query: &[i8],
    start: u16,
    threshold: u16,
    width: u16,
    k: u16,
    ids: &mut [u16],
    distances: &mut [u32],
    trail: &mut [u16],
    found: &mut usize,
    seen: &mut usize,
    walked: &mut usize,
) -> u8
    ensures refusal { result
        ≡ number_of (search_answer (ask n d vectors.now table.now query.now start threshold width k) ids.old distances.old trail.old) }
    ensures ids { ids.new
        ≡ ids_after (ask n d vectors.now table.now query.now start threshold width k) ids.old distances.old trail.old }
    ensures distances { distances.new
        ≡ distances_after (ask n d vectors.now table.now query.now start threshold width k) ids.old distances.old trail.old }
    ensures trail { trail.new
        ≡ trail_after (ask n d vectors.now table.now query.now start threshold width k) ids.old distances.old trail.old }
    ensures found { found.new
        ≡ cell_after (search_answer (ask n d vectors.now table.now query.now start threshold width k) ids.old distances.old trail.old) (λ c. c.found) found.old }
    ensures seen { seen.new
        ≡ cell_after (search_answer (ask n d vectors.now table.now query.now start threshold width k) ids.old distances.old trail.old) (λ c. c.seen) seen.old }
    ensures walked { walked.new
        ≡ cell_after (search_answer (ask n d vectors.now table.now query.now start threshold width k) ids.old distances.old trail.old) (λ c. c.walked) walked.old }
{
    let set = Set { n, d, vectors };
    let question = Question {
        set,
        table,
        query,
        threshold,
    };
    let ask = Ask {
        question,
        start,
        width,
        k,
    };
    match search::search(&ask, ids, distances, trail) {
        Ok(counts) => {
            *found = counts.found;
            *seen = counts.seen;
            *walked = counts.walked;
            0
        }
        Err(refusal) => u8::from(refusal),
    }
}
