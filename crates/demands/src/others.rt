// The public functions beside the entries, by the records of specs/OtherCalls. (`open`, `past` and `field` of a reading place take one or hand one over;
// `sheet::place::field_from` calls all three.)
ghost use Rattle.std.specs.Prelude.{length};
ghost use Rattle.rules.specs.Lines.{set_line, found_line, ask_refused_line, near_line, trail_line, refused_line};
ghost use Rattle.rules.specs.Program.{lines_of, printed};
ghost use Rattle.space.specs.Told.{number_in};
ghost use Rattle.search.specs.Answer.{asked};
ghost use Rattle.lines.specs.Placing.{three_lines};
ghost use Rattle.demands.specs.OtherCalls.{OutsideCall, SetRefusalCall, StartRefusalCall, SmallerCall, MeasureCall, CheckCall, CoordinatesCall, ApartCall, QuestionCheckCall, AwayCall, KeyCall, IdCall, DistanceInCall, LabelCall, FieldCall, PlacedCall, PageCall};

use lines::{Found, TooShort};
use search::Ask;
use space::{Asked, Points, Question, Refusal, Set};

fn is_outside_call(low: usize, high: usize, x: usize) -> bool
    ensures { OutsideCall low high x result }
{
    space::is_outside(low, high, x)
}

fn set_refusal_call(n: usize, d: usize, len: usize) -> Result<(), Refusal>
    ensures { SetRefusalCall n d len (number_in result) }
{
    space::set_refusal(n, d, len)
}

fn start_refusal_call(
    n: usize,
    d: usize,
    vectors: usize,
    table: usize,
    query: usize,
    start: usize,
) -> Result<(), Refusal>
    ensures { StartRefusalCall n d vectors table query start (number_in result) }
{
    space::start_refusal(n, d, vectors, table, query, start)
}

fn smaller_call(x: usize, y: usize) -> usize
    ensures { SmallerCall x y result }
{
    space::smaller(x, y)
}

fn measure_call(set: &Set<'_>, id: usize, query: &[i8]) -> u32
    ensures { MeasureCall set.now.n set.now.d set.now.vectors.now id query.now result }
{
    set.measure(id, query)
}

fn check_call<'a>(set: &Set<'a>) -> Result<Points<'a>, Refusal>
    ensures { CheckCall set.now result }
{
    set.check()
}

fn coordinates_call<'a>(points: &Points<'a>, id: usize) -> &'a [i8]
    ensures { CoordinatesCall points.now.set.d points.now.set.vectors.now id result.now }
{
    points.coordinates(id)
}

fn apart_call(points: &Points<'_>, u: usize, v: usize) -> u32
    ensures { ApartCall points.now.set.d points.now.set.vectors.now u v result }
{
    points.apart(u, v)
}

fn question_check_call<'a>(question: &Question<'a>, start: usize) -> Result<Asked<'a>, Refusal>
    ensures { QuestionCheckCall question.now start result }
{
    question.check(start)
}

fn away_call(asked: &Asked<'_>, id: usize) -> u32
    ensures { AwayCall asked.now.points.set.d asked.now.points.set.vectors.now asked.now.query.now id result }
{
    asked.away(id)
}

fn key_call(asked: &Asked<'_>, id: u8) -> u32
    ensures { KeyCall asked.now.points.set.d asked.now.points.set.vectors.now asked.now.query.now id result }
{
    asked.key(id)
}

fn id_of_call(key: u32) -> u16
    ensures { IdCall key result }
{
    space::id_of(key)
}

fn distance_of_call(key: u32) -> u32
    ensures { DistanceInCall key result }
{
    space::distance_of(key)
}

fn label_call(duv: u32, dwv: u32) -> u16
    ensures { LabelCall duv dwv result }
{
    table::label(duv, dwv)
}

fn field_from_call(sheet: &[u8], at: usize, bits: usize) -> u16
    ensures { FieldCall sheet.now at bits result }
{
    sheet::place::field_from(sheet, at, bits)
}

fn place_call(bytes: &[u8], output: &mut [u8], at: usize) -> Result<usize, TooShort>
    ensures { PlacedCall at bytes.now output.old result output.new }
{
    lines::place(bytes, output, at)
}

fn set_line_call(
    n: usize,
    d: usize,
    asks: usize,
    output: &mut [u8],
    at: usize,
) -> Result<usize, TooShort>
    ensures { PlacedCall at (set_line n d asks) output.old result output.new }
{
    lines::set_line(n, d, asks, output, at)
}

fn ask_refused_line_call(
    ask: usize,
    refusal: usize,
    output: &mut [u8],
    at: usize,
) -> Result<usize, TooShort>
    ensures { PlacedCall at (ask_refused_line ask refusal) output.old result output.new }
{
    lines::ask_refused_line(ask, refusal, output, at)
}

fn refused_line_call(refusal: usize, output: &mut [u8], at: usize) -> Result<usize, TooShort>
    ensures { PlacedCall at (refused_line refusal) output.old result output.new }
{
    lines::refused_line(refusal, output, at)
}

fn found_line_call(counts: Found, output: &mut [u8], at: usize) -> Result<usize, TooShort>
    ensures { PlacedCall at (found_line counts.ask counts.found counts.seen counts.walked) output.old result output.new }
{
    lines::found_line(counts, output, at)
}

fn near_line_call(
    ids: &[u16],
    distances: &[u32],
    output: &mut [u8],
    at: usize,
) -> Result<usize, TooShort>
    ensures { PlacedCall at (near_line ids.now distances.now) output.old result output.new }
{
    lines::near_line(ids, distances, output, at)
}

fn trail_line_call(ids: &[u16], output: &mut [u8], at: usize) -> Result<usize, TooShort>
    ensures { PlacedCall at (trail_line ids.now) output.old result output.new }
{
    lines::trail_line(ids, output, at)
}

fn answer_lines_call(
    counts: Found,
    ids: &[u16],
    distances: &[u32],
    trail: &[u16],
    output: &mut [u8],
    at: usize,
) -> Result<usize, TooShort>
    ensures { PlacedCall at (three_lines counts.ask counts.found counts.seen counts.walked ids.now distances.now trail.now) output.old result output.new }
{
    lines::answer_lines(counts, ids, distances, trail, output, at)
}

fn ask_lines_call(
    number: u16,
    ask: &Ask<'_>,
    output: &mut [u8],
    at: usize,
) -> Result<usize, TooShort>
    ensures { PlacedCall at (lines_of number (asked ask.now)) output.old result output.new }
{
    report::ask_lines(number, ask, output, at)
}

fn page_call() -> [u8; 270000]
    ensures { PageCall result }
{
    report::page()
}

fn print_call(sheet: &[u8], output: &mut [u8], at: usize) -> Result<usize, TooShort>
    ensures { PlacedCall at (printed sheet.now) output.old result output.new }
{
    report::print(sheet, output, at)
}
