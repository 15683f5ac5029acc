// The entries, by the records of specs/Calls.
ghost use Rattle.std.specs.Prelude.{length};
ghost use Rattle.space.specs.Told.{number_in};
ghost use Rattle.search.specs.Answer.{asked};
ghost use Rattle.walk.specs.Answers.{record_of};
ghost use Rattle.sheet.specs.Answers.{held};
ghost use Rattle.demands.specs.Calls.{PointCall, PointRefusalCall, DistanceCall, BuildCall, SearchCall, StepCall, WalkCall, WriteCall, HeaderCall, VectorsCall, AskCall};

use search::{Ask, Counts};
use sheet::{Contents, Head, Numbers};
use space::{Question, Refusal, Set};
use walk::{End, Step, Stepped, Walk};

fn point_call<'a>(set: &Set<'a>, id: usize) -> &'a [i8]
    ensures { PointCall set.now.n set.now.d set.now.vectors.now id result.now }
{
    set.point(id)
}

fn point_refusal_call(set: &Set<'_>, id: usize) -> Result<(), Refusal>
    ensures { PointRefusalCall set.now.n set.now.d set.now.vectors.now id (number_in result) }
{
    set.point_refusal(id)
}

fn distance_call(a: &[i8], b: &[i8]) -> u32
    ensures { DistanceCall a.now b.now result }
{
    space::distance(a, b)
}

fn build_call(set: &Set<'_>, table: &mut [u16]) -> Result<(), Refusal>
    ensures { BuildCall set.now.n set.now.d set.now.vectors.now table.old (number_in result) table.new }
{
    table::build(set, table)
}

fn search_call(
    ask: &Ask<'_>,
    ids: &mut [u16],
    distances: &mut [u32],
    trail: &mut [u16],
) -> Result<Counts, Refusal>
    ensures { SearchCall (asked ask.now) ids.old distances.old trail.old result ids.new distances.new trail.new }
{
    search::search(ask, ids, distances, trail)
}

fn step_call(walk: &mut Walk, question: &Question<'_>) -> Result<Step, Refusal>
    ensures { StepCall question.now.set.n question.now.set.d question.now.set.vectors.now question.now.table.now question.now.query.now question.now.threshold
        (record_of walk.old) result (record_of walk.new) }
{
    walk::step(walk, question)
}

fn step_at_call(question: &Question<'_>, walk: Walk) -> Stepped
    ensures { StepCall question.now.set.n question.now.set.d question.now.set.vectors.now question.now.table.now question.now.query.now question.now.threshold
        (record_of walk) result.answer (record_of result.walk) }
{
    walk::step_at(question, walk)
}

fn walk_call(question: &Question<'_>, start: u16) -> Result<End, Refusal>
    ensures { WalkCall question.now.set.n question.now.set.d question.now.set.vectors.now question.now.table.now question.now.query.now question.now.threshold
        start result }
{
    walk::whole_walk(question, start)
}

fn write_call(contents: &Contents<'_>, output: &mut [u8]) -> Result<usize, Refusal>
    ensures { WriteCall (held contents.now) output.old result output.new }
{
    sheet::write(contents, output)
}

fn header_call(sheet: &[u8]) -> Result<Head, Refusal>
    ensures { HeaderCall sheet.now result }
{
    sheet::header(sheet)
}

fn vectors_call(sheet: &[u8], buffer: &mut [i8]) -> Result<(), Refusal>
    ensures { VectorsCall sheet.now buffer.old (number_in result) buffer.new }
{
    sheet::vectors(sheet, buffer)
}

fn ask_call(sheet: &[u8], number: u16, query: &mut [i8]) -> Result<Numbers, Refusal>
    ensures { AskCall sheet.now number query.old result query.new }
{
    sheet::ask(sheet, number, query)
}
