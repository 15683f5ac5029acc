// On plain numbers, as C calls them: the functions of `cabi`, which `cabi_c` hands to C, by the records of specs/CallsInC and, where they promise what an entry
// promises, of specs/Calls. Each function of `cabi_c` names the same record once more, as its clause `call`, since no theorem can stand on an archive.
ghost use Rattle.rules.specs.Sheet.{contents};
ghost use Rattle.rules.specs.Entries.{ask};
ghost use Rattle.walk.specs.Answers.{at};
ghost use Rattle.demands.specs.Calls.{DistanceCall, BuildCall, VectorsCall};
ghost use Rattle.demands.specs.CallsInC.{PointInC, SearchInC, StepInC, WalkInC, WriteInC, HeaderInC, AskInC};

fn point_in_c(
    n: usize,
    d: usize,
    vectors: &[i8],
    id: usize,
    start: &mut usize,
    count: &mut usize,
) -> u8
    ensures { PointInC n d vectors.now id start.old count.old result start.new count.new }
{
    cabi::sets::magpiehinge_point(n, d, vectors, id, start, count)
}

fn distance_in_c(a: &[i8], b: &[i8]) -> u32
    ensures { DistanceCall a.now b.now result }
{
    cabi::sets::magpiehinge_distance(a, b)
}

fn build_in_c(n: usize, d: usize, vectors: &[i8], table: &mut [u16]) -> u8
    ensures { BuildCall n d vectors.now table.old result table.new }
{
    cabi::sets::magpiehinge_build(n, d, vectors, table)
}

fn search_in_c(
    n: usize,
    d: usize,
    vectors: &[i8],
    table: &[u16],
    query: &[i8],
    start: u16,
    threshold: u16,
    width: u16,
    k: u16,
    ids: &mut [u16],
    distances: &mut [u32],
    trail: &mut [u16],
    found: &mut usize,
    seen: &mut usize,
    walked: &mut usize,
) -> u8
    ensures { SearchInC (ask n d vectors.now table.now query.now start threshold width k) ids.old distances.old trail.old found.old seen.old walked.old result ids.new distances.new trail.new found.new seen.new walked.new }
{
    cabi::searches::magpiehinge_search(
        n, d, vectors, table, query, start, threshold, width, k, ids, distances, trail, found,
        seen, walked,
    )
}

fn step_in_c(
    n: usize,
    d: usize,
    vectors: &[i8],
    table: &[u16],
    query: &[i8],
    threshold: u16,
    current: &mut u16,
    moves: &mut u16,
    moved: &mut u8,
) -> u8
    ensures { StepInC n d vectors.now table.now query.now threshold (at current.old moves.old) moved.old result current.new moves.new moved.new }
{
    cabi::walks::magpiehinge_step(
        n, d, vectors, table, query, threshold, current, moves, moved,
    )
}

fn walk_in_c(
    n: usize,
    d: usize,
    vectors: &[i8],
    table: &[u16],
    query: &[i8],
    start: u16,
    threshold: u16,
    last: &mut u16,
    distance: &mut u32,
    moves: &mut u16,
) -> u8
    ensures { WalkInC n d vectors.now table.now query.now threshold start last.old distance.old moves.old result last.new distance.new moves.new }
{
    cabi::walks::magpiehinge_walk(
        n, d, vectors, table, query, start, threshold, last, distance, moves,
    )
}

fn write_in_c(
    n: usize,
    d: usize,
    c: usize,
    asks: usize,
    vectors: &[i8],
    numbers: &[u16],
    queries: &[i8],
    output: &mut [u8],
    written: &mut usize,
) -> u8
    ensures { WriteInC (contents n d c asks vectors.now numbers.now queries.now) output.old written.old result output.new written.new }
{
    cabi::sheets::magpiehinge_write(n, d, c, asks, vectors, numbers, queries, output, written)
}

fn header_in_c(sheet: &[u8], n: &mut usize, d: &mut usize, c: &mut usize, asks: &mut usize) -> u8
    ensures { HeaderInC sheet.now n.old d.old c.old asks.old result n.new d.new c.new asks.new }
{
    cabi::sheets::magpiehinge_header(sheet, n, d, c, asks)
}

fn vectors_in_c(sheet: &[u8], buffer: &mut [i8]) -> u8
    ensures { VectorsCall sheet.now buffer.old result buffer.new }
{
    cabi::sheets::magpiehinge_vectors(sheet, buffer)
}

fn ask_in_c(
    sheet: &[u8],
    number: u16,
    query: &mut [i8],
    start: &mut u16,
    width: &mut u16,
    k: &mut u16,
    threshold: &mut u16,
) -> u8
    ensures { AskInC sheet.now number query.old start.old width.old k.old threshold.old result query.new start.new width.new k.new threshold.new }
{
    cabi::sheets::magpiehinge_ask(sheet, number, query, start, width, k, threshold)
}
