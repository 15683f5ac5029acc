// Points of a set: whether the set is refused, a point's coordinates, and the distance.
#![tactic(auto)]

ghost use Rattle.std.specs.Prelude.{◌≡◌, ◌≤◌, min, length, take};
ghost use Rattle.rules.specs.Points.{dist};
ghost use Rattle.rules.specs.Refusals.{outside, set_refusal, start_refusal};
ghost use Rattle.space.specs.Told.{number_in};

mod blocks;
mod key;
mod question;
mod refusal;
mod set;

pub use key::{distance_of, id_of};
pub use question::{Asked, Question};
pub use refusal::Refusal;
pub use set::{Points, Set};

// Whether x is below low or over high: the test of refusals 1, 2, 7, 8 and 11.
pub fn is_outside(low: usize, high: usize, x: usize) -> bool
    ensures { result ≡ outside low high x }
{
    !(low..=high).contains(&x)
}

// Refusals 1, 2 and 3, with which every entry that is lent a set begins. Three numbers stay: `set_refusal_fixed` is about all lengths.
pub fn set_refusal(n: usize, d: usize, vectors: usize) -> Result<(), Refusal>
    ensures { number_in result ≡ set_refusal n d vectors }
{
    if is_outside(1, 128, n) {
        return Err(Refusal::Points);
    }
    if is_outside(1, 64, d) {
        return Err(Refusal::Coordinates);
    }
    if vectors != n * d {
        return Err(Refusal::Vectors);
    }
    Ok(())
}

// Refusals 1 to 6, with which every entry begins that is lent a set, its table, a query and an id to start from, by the lengths of what is lent. Six numbers
// stay: `start_refusal_fixed` is about all lengths, also those that no slice has.
pub fn start_refusal(
    n: usize,
    d: usize,
    vectors: usize,
    table: usize,
    query: usize,
    start: usize,
) -> Result<(), Refusal>
    ensures { number_in result ≡ start_refusal n d vectors table query start }
{
    set_refusal(n, d, vectors)?;
    if table != n * n {
        return Err(Refusal::Table);
    }
    if query != d {
        return Err(Refusal::Query);
    }
    if n <= start {
        return Err(Refusal::Id);
    }
    Ok(())
}

// The smaller of two numbers. It stays beside `min`: docs/PROMISES.md names it, with its theorem `smaller_fixed`.
pub fn smaller(x: usize, y: usize) -> usize
    ensures { result ≡ min x y }
{
    x.min(y)
}

// D of the first 64 pairs of coordinates; the pairs end with the shorter slice. Its bound stays a clause, here and where D is handed on: D is a number of 32
// bits at the border, for C too.
pub fn distance(a: &[i8], b: &[i8]) -> u32
    ensures value { result ≡ dist (take 64 a.now) (take 64 b.now) }
    ensures bounded { result ≤ 4161600 }
{
    let n = a.len().min(b.len()).min(64);
    let mut sum: u32 = 0;
    let mut i = 0;
    // Stays by hand: `as_chunks` and a `zip` in place of the blocks took 11.4 ns against 9.1 at 64 coordinates and 7.0 against 4.5 at 16.
    while 32 <= n - i {
        sum += blocks::thirty_two(a, b, i);
        i += 32;
    }
    if 16 <= n - i {
        sum += blocks::sixteen(a, b, i);
        i += 16;
    }
    for last in i..n {
        sum += blocks::pair(a, b, last);
    }
    sum
}
