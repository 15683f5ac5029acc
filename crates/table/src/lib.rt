// The label table of a set.
#![tactic(auto)]

ghost use Rattle.std.specs.Prelude.{◌≡◌, ◌*◌, ◌<◌, ◌≤◌, min, cond, length, IfOk, OnOk};
ghost use Rattle.rules.specs.Labels.{reaches, label_of};
ghost use Rattle.rules.specs.Refusals.{build_refusal};
ghost use Rattle.rules.specs.Entries.{table_after};
ghost use Rattle.space.specs.Told.{number_in};

mod kept;
mod rows;

use kept::{Distances, PLACES};
use rows::write_rows;
use space::{Points, Refusal, Set};

// The largest squared distance: 64 coordinates, each 255 apart.
const FARTHEST: u32 = 4161600;

// t where it does not exceed the root of a less the root of b, and low where it does. Stays: a name for what both tests say. With them in the `if` itself
// the build takes 1.23 ms in place of 0.80 at 64 coordinates, and with `&` 1.09.
fn further(a: u64, b: u64, low: u64, t: u64) -> u64
    requires { (a ≤ 256 * 4161600) × (b ≤ 256 * 4161600) × (0 < t) × (t ≤ 32767) }
    ensures { result ≡ cond (reaches a b (t * t)) t low }
{
    let s = t * t;
    let most = a.saturating_sub(b);
    let x = most.saturating_sub(s);
    let reaches = s <= most && 4 * s * b <= x * x;
    if reaches { t } else { low }
}

// The label of an edge from D(u,v) and D(w,v), by halving. A number past the largest squared distance counts as that.
pub fn label(duv: u32, dwv: u32) -> u16
    ensures { result ≡ label_of (min duv 4161600) (min dwv 4161600) }
{
    let a = 256 * u64::from(duv.min(FARTHEST));
    let b = 256 * u64::from(dwv.min(FARTHEST));
    let mut low: u64 = 0;
    let mut width: u64 = 32768;
    while 1 < width {
        let half = width / 2;
        low = further(a, b, low, low + half);
        width -= half;
    }
    // Loses nothing: low is below 32768.
    low as u16
}

// Refusals 1 to 4; where there is none, the set as one that is not refused.
fn check<'a>(set: &Set<'a>, table: usize) -> Result<Points<'a>, Refusal>
    ensures refusal { number_in result ≡ build_refusal set.now.n set.now.d (length set.now.vectors.now) table }
    ensures same { IfOk result (λ points. points.set ≡ set.now) }
    ensures table { OnOk result (table ≡ set.now.n * set.now.n) }
{
    let points = set.check()?;
    if table != set.n * set.n {
        return Err(Refusal::Table);
    }
    Ok(points)
}

// The label table of a set, in the lent cells. Where it refuses, they stay as they were.
pub fn build(set: &Set<'_>, table: &mut [u16]) -> Result<(), Refusal>
    ensures value { number_in result ≡ build_refusal set.now.n set.now.d (length set.now.vectors.now) (length table.old) }
    ensures written { table.new ≡ table_after set.now.n set.now.d set.now.vectors.now table.old }
{
    let points = check(set, table.len())?;
    let mut distances = Distances {
        cells: [0; PLACES],
        n: points.set.n,
    };
    distances.fill(&points);
    write_rows(&distances, table);
    Ok(())
}
