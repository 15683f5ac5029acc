// Points, distances and tables.
ghost use Rattle.std.specs.Prelude.{◌≡◌, ◌*◌, length, take};
ghost use Rattle.rules.specs.Outcome.{after};
ghost use Rattle.rules.specs.Points.{dist};
ghost use Rattle.rules.specs.Refusals.{point_refusal, build_refusal};
ghost use Rattle.rules.specs.Entries.{table_after};
ghost use Rattle.demands.specs.Calls.{DistanceCall, BuildCall};
ghost use Rattle.demands.specs.CallsInC.{PointInC};

// Where the coordinates of a point start in the vectors, and how many there are.
#[unsafe(no_mangle)]
pub extern "C" fn magpiehinge_point(
    n: usize,
    d: usize,
    vectors: &[i8],
    id: usize,
    start: &mut usize,
    count: &mut usize,
) -> u8
    ensures refusal { result ≡ point_refusal n d (length vectors.now) id }
    ensures start { start.new ≡ after (point_refusal n d (length vectors.now) id) start.old (id * d) }
    ensures count { count.new ≡ after (point_refusal n d (length vectors.now) id) count.old d }
    ensures call { PointInC n d vectors.now id start.old count.old result start.new count.new }
{
    cabi::sets::magpiehinge_point(n, d, vectors, id, start, count)
}

// D of two points, over the pairs that both have, at most 64.
#[unsafe(no_mangle)]
pub extern "C" fn magpiehinge_distance(a: &[i8], b: &[i8]) -> u32
    ensures value { result ≡ dist (take 64 a.now) (take 64 b.now) }
    ensures call { DistanceCall a.now b.now result }
{
    cabi::sets::magpiehinge_distance(a, b)
}

// The label table of a set, into n × n cells.
#[unsafe(no_mangle)]
pub extern "C" fn magpiehinge_build(n: usize, d: usize, vectors: &[i8], table: &mut [u16]) -> u8
    ensures refusal { result ≡ build_refusal n d (length vectors.now) (length table.old) }
    ensures table { table.new ≡ table_after n d vectors.now table.old }
    ensures call { BuildCall n d vectors.now table.old result table.new }
{
    cabi::sets::magpiehinge_build(n, d, vectors, table)
}
