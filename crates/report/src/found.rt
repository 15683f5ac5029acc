// The lines of an answered ask, from the buffers of its search.
ghost use Rattle.std.specs.Prelude.{◌≡◌, ◌≤◌, length, take};
ghost use Rattle.lines.specs.Placing.{placed_answer, placed_after, three_lines};

use lines::{Found, TooShort};

// The three lines of an ask that is answered, from buffers whose first cells hold the answer.
pub(crate) fn found_lines(
    counts: Found,
    ids: &[u16],
    distances: &[u32],
    trail: &[u16],
    output: &mut [u8],
    at: usize,
) -> Result<usize, TooShort>
    requires { (counts.found ≤ length ids.now) × (counts.found ≤ length distances.now) × (counts.walked ≤ length trail.now) }
    ensures answer { result ≡ placed_answer at (three_lines counts.ask counts.found counts.seen counts.walked (take counts.found ids.now) (take counts.found distances.now) (take counts.walked trail.now)) output.old }
    ensures output { output.new ≡ placed_after at (three_lines counts.ask counts.found counts.seen counts.walked (take counts.found ids.now) (take counts.found distances.now) (take counts.walked trail.now)) output.old }
{
    lines::answer_lines(
        counts,
        &ids[..counts.found],
        &distances[..counts.found],
        &trail[..counts.walked],
        output,
        at,
    )
}
