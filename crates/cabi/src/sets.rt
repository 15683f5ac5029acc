// Points, distances and tables.
ghost use Rattle.std.specs.Prelude.{◌≡◌, ◌*◌, length, take};
ghost use Rattle.rules.specs.Outcome.{after};
ghost use Rattle.rules.specs.Points.{dist};
ghost use Rattle.rules.specs.Refusals.{point_refusal, build_refusal};
ghost use Rattle.rules.specs.Entries.{table_after};

use crate::code;
use space::Set;

// Where the coordinates of a point start in the vectors, and how many there are. Named here: the law that a refusal leaves a cell as it was, for both cells and
// for any way to tell the refusals apart.
#[tactic(auto, using(laws::proofs::Refusals::after_old))]
pub fn magpiehinge_point(
    n: usize,
    d: usize,
    vectors: &[i8],
    id: usize,
    start: &mut usize,
    count: &mut usize,
) -> u8
    ensures refusal { result ≡ point_refusal n d (length vectors.now) id }
    ensures start { start.new ≡ after (point_refusal n d (length vectors.now) id) start.old (id * d) }
    ensures count { count.new ≡ after (point_refusal n d (length vectors.now) id) count.old d }
{
    let set = Set { n, d, vectors };
    match set.point_refusal(id) {
        Ok(()) => {
            *start = id * d;
            *count = d;
            0
        }
        Err(refusal) => u8::from(refusal),
    }
}

// D of two points, over the pairs that both have, at most 64.
pub fn magpiehinge_distance(a: &[i8], b: &[i8]) -> u32
    ensures { result ≡ dist (take 64 a.now) (take 64 b.now) }
{
    space::distance(a, b)
}

// The label table of a set, into n × n cells.
pub fn magpiehinge_build(n: usize, d: usize, vectors: &[i8], table: &mut [u16]) -> u8
    ensures refusal { result ≡ build_refusal n d (length vectors.now) (length table.old) }
    ensures table { table.new ≡ table_after n d vectors.now table.old }
{
    code(table::build(&Set { n, d, vectors }, table))
}
