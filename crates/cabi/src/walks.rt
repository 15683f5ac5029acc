// The greedy walk.
ghost use Rattle.std.specs.Prelude.{◌≡◌};
ghost use Rattle.rules.specs.Entries.{step_answer, record_after, walk_answer};
ghost use Rattle.walk.specs.Answers.{at};
ghost use Rattle.cabi.specs.Plain.{number_of, cell_after, moved_bit};

use crate::moved_bit;
use space::{Question, Set};
use walk::Walk;

// One step of a walk record, current and moves. `moved` becomes 1 for "moved" and 0 for "at end".
pub fn magpiehinge_step(
    n: usize,
    d: usize,
    vectors: &[i8],
    table: &[u16],
    query: &[i8],
    threshold: u16,
    current: &mut u16,
    moves: &mut u16,
    moved: &mut u8,
) -> u8
    ensures refusal { result
        ≡ number_of (step_answer n d vectors.now table.now query.now threshold (at current.old moves.old)) }
    ensures current { current.new
        ≡ (record_after n d vectors.now table.now query.now threshold (at current.old moves.old)).current }
    ensures moves { moves.new
        ≡ (record_after n d vectors.now table.now query.now threshold (at current.old moves.old)).moves }
    ensures moved { moved.new
        ≡ cell_after (step_answer n d vectors.now table.now query.now threshold (at current.old moves.old)) moved_bit moved.old }
{
    let question = Question {
        set: Set { n, d, vectors },
        table,
        query,
        threshold,
    };
    let mut walk = Walk {
        current: *current,
        moves: *moves,
    };
    let answer = walk::step(&mut walk, &question);
    *current = walk.current;
    *moves = walk.moves;
    match answer {
        Ok(step) => {
            *moved = moved_bit(step);
            0
        }
        Err(refusal) => u8::from(refusal),
    }
}

// The whole walk from a start: the last id, its D and the moves.
pub fn magpiehinge_walk(
    n: usize,
    d: usize,
    vectors: &[i8],
    table: &[u16],
    query: &[i8],
    start: u16,
    threshold: u16,
    last: &mut u16,
    distance: &mut u32,
    moves: &mut u16,
) -> u8
    ensures refusal { result ≡ number_of (walk_answer n d vectors.now table.now query.now threshold start) }
    ensures last { last.new
        ≡ cell_after (walk_answer n d vectors.now table.now query.now threshold start) (λ c. c.last) last.old }
    ensures distance { distance.new
        ≡ cell_after (walk_answer n d vectors.now table.now query.now threshold start) (λ c. c.distance) distance.old }
    ensures moves { moves.new
        ≡ cell_after (walk_answer n d vectors.now table.now query.now threshold start) (λ c. c.moves) moves.old }
{
    let question = Question {
        set: Set { n, d, vectors },
        table,
        query,
        threshold,
    };
    match walk::whole_walk(&question, start) {
        Ok(end) => {
            *last = end.last;
            *distance = end.distance;
            *moves = end.moves;
            0
        }
        Err(refusal) => u8::from(refusal),
    }
}
