// The greedy walk of document 01: one step of a record that the caller keeps, and the whole walk from a start to its end.
#![tactic(auto)]

ghost use Rattle.std.specs.Prelude.{◌≡◌};
ghost use Rattle.rules.specs.Entries.{step_answer, record_after, walk_answer};
ghost use Rattle.walk.specs.Answers.{record_of, record_in, told, end_in, told_end};
ghost use Rattle.walk.specs.Asked.{question_of, ends};

mod answers;
mod stand;

pub use answers::{End, Step, Stepped, Walk};
use space::{Question, Refusal};
use stand::Stand;

// One step of the record that the caller keeps.
pub fn step(walk: &mut Walk, question: &Question<'_>) -> Result<Step, Refusal>
    ensures answer { let q = question.now in
        told result ≡ step_answer q.set.n q.set.d q.set.vectors.now q.table.now q.query.now q.threshold (record_of walk.old) }
    ensures walk_after { let q = question.now in
        record_of walk.new ≡ record_after q.set.n q.set.d q.set.vectors.now q.table.now q.query.now q.threshold (record_of walk.old) }
{
    let stand = Stand::check(question, walk.current)?;
    let Some(next) = stand.nearer() else {
        return Ok(Step::AtEnd);
    };
    if 127 <= walk.moves {
        return Err(Refusal::Moves);
    }
    walk.current = next.current;
    walk.moves += 1;
    Ok(Step::Moved)
}

// One step from a record as it stands: the answer, and what the record holds then.
// Stays: docs/PROMISES.md names it with its theorem `step_at_fixed`.
pub fn step_at(question: &Question<'_>, walk: Walk) -> Stepped
    ensures answer { let q = question.now in
        told result.answer ≡ step_answer q.set.n q.set.d q.set.vectors.now q.table.now q.query.now q.threshold (record_of walk) }
    ensures walk_after { let q = question.now in
        record_in result ≡ record_after q.set.n q.set.d q.set.vectors.now q.table.now q.query.now q.threshold (record_of walk) }
{
    let mut walk = walk;
    let answer = step(&mut walk, question);
    Stepped { answer, walk }
}

// The walk from where it stands at its start: each move is to a smaller D.
fn walk_on(start: Stand) -> End
    ensures { end_in result ≡ ends (question_of start.entry.asked) start.entry.current }
{
    let mut stand = start;
    let mut moves = 0;
    while let Some(next) = stand.nearer() {
        stand = next;
        moves += 1;
    }
    End {
        last: stand.current,
        distance: stand.distance,
        moves,
    }
}

// The whole walk: from a start with 0 moves, steps to the end.
pub fn whole_walk(question: &Question<'_>, start: u16) -> Result<End, Refusal>
    ensures { let q = question.now in
        told_end result ≡ walk_answer q.set.n q.set.d q.set.vectors.now q.table.now q.query.now q.threshold start }
{
    let stand = Stand::check(question, start)?;
    Ok(walk_on(stand))
}
