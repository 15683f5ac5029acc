// The lines of document 01, "The program", as bytes in a lent buffer. Each line is measured first, so that a buffer that is too short is refused and
// keeps all it held.
#![tactic(auto)]

mod line;
mod measure;
mod put;
mod sink;

ghost use Rattle.std.specs.Prelude.{◌≡◌, Some, codes};
ghost use Rattle.rules.specs.Lines.{set_line, found_line, ask_refused_line, near_line, trail_line, refused_line};
ghost use Rattle.lines.specs.Placing.{placed_answer, placed_after, three_lines};

use line::{Answer, AskRefused, Bytes, Line, Near, Refused, Set, Trail};
use sink::{Page, Room};
use std::error::Error;
use std::fmt;

// The buffer has no room for all the bytes.
#[derive(Clone, Copy, Debug, PartialEq, Eq)]
pub struct TooShort;

impl fmt::Display for TooShort {
    ghost output = { λ _. Some (codes "the buffer is too short") };

    fn fmt<W: fmt::Write>(&self, f: &mut fmt::Formatter<W>) -> fmt::Result {
        write!(f, "the buffer is too short")
    }
}

impl Error for TooShort {}

// The number of an ask that is answered, and its counts. The search has a struct of such counts too, but stands beside this crate and not below it.
#[derive(Clone, Copy, Debug, PartialEq, Eq)]
pub struct Found {
    pub ask: usize,
    pub found: usize,
    pub seen: usize,
    pub walked: usize,
}

// Each function below answers the place after the bytes. They stay beside this generic one, a name for each line: docs/PROMISES.md names them, and each
// contract says its line in document 01's terms. The buffer and the place stay two parameters: a struct of both would hold the `&mut`, and each
// contract would have to say that it still holds the same one, which is no plainer.
fn placed<L: Line>(line: &L, output: &mut [u8], at: usize) -> Result<usize, TooShort>
    ensures answer { result ≡ placed_answer at (L.bytes line.now) output.old }
    ensures output { output.new ≡ placed_after at (L.bytes line.now) output.old }
{
    let left = output.len().checked_sub(at).ok_or(TooShort)?;
    line.put(&mut Room { left })?;
    let mut page = Page { output, at };
    line.put(&mut page)?;
    Ok(page.at)
}

// Bytes as they are.
pub fn place(bytes: &[u8], output: &mut [u8], at: usize) -> Result<usize, TooShort>
    ensures answer { result ≡ placed_answer at bytes.now output.old }
    ensures output { output.new ≡ placed_after at bytes.now output.old }
{
    placed(&Bytes { bytes }, output, at)
}

// set N D ASKS: three numbers, since the sheet's header holds a fourth, and stands beside this crate.
pub fn set_line(
    n: usize,
    d: usize,
    asks: usize,
    output: &mut [u8],
    at: usize,
) -> Result<usize, TooShort>
    ensures answer { result ≡ placed_answer at (set_line n d asks) output.old }
    ensures output { output.new ≡ placed_after at (set_line n d asks) output.old }
{
    placed(&Set { n, d, asks }, output, at)
}

// ask I refused R, of any number too.
pub fn ask_refused_line(
    ask: usize,
    refusal: usize,
    output: &mut [u8],
    at: usize,
) -> Result<usize, TooShort>
    ensures answer { result ≡ placed_answer at (ask_refused_line ask refusal) output.old }
    ensures output { output.new ≡ placed_after at (ask_refused_line ask refusal) output.old }
{
    placed(&AskRefused { ask, refusal }, output, at)
}

// refused R: any number, and no `Refusal`, since the line is defined for every number (rules, `refused_line`).
pub fn refused_line(refusal: usize, output: &mut [u8], at: usize) -> Result<usize, TooShort>
    ensures answer { result ≡ placed_answer at (refused_line refusal) output.old }
    ensures output { output.new ≡ placed_after at (refused_line refusal) output.old }
{
    placed(&Refused { refusal }, output, at)
}

// ask I found F seen S walked W
pub fn found_line(counts: Found, output: &mut [u8], at: usize) -> Result<usize, TooShort>
    ensures answer { result ≡ placed_answer at (found_line counts.ask counts.found counts.seen counts.walked) output.old }
    ensures output { output.new ≡ placed_after at (found_line counts.ask counts.found counts.seen counts.walked) output.old }
{
    placed(&counts, output, at)
}

// near ID D ID D .. The ids and the distances are two slices because the C interface of the search lends two.
pub fn near_line(
    ids: &[u16],
    distances: &[u32],
    output: &mut [u8],
    at: usize,
) -> Result<usize, TooShort>
    ensures answer { result ≡ placed_answer at (near_line ids.now distances.now) output.old }
    ensures output { output.new ≡ placed_after at (near_line ids.now distances.now) output.old }
{
    placed(&Near { ids, distances }, output, at)
}

// trail ID ID ..
pub fn trail_line(ids: &[u16], output: &mut [u8], at: usize) -> Result<usize, TooShort>
    ensures answer { result ≡ placed_answer at (trail_line ids.now) output.old }
    ensures output { output.new ≡ placed_after at (trail_line ids.now) output.old }
{
    placed(&Trail { ids }, output, at)
}

// The three lines of an ask that is answered, all or none; ids and distances are two slices, as at `near_line`.
pub fn answer_lines(
    counts: Found,
    ids: &[u16],
    distances: &[u32],
    trail: &[u16],
    output: &mut [u8],
    at: usize,
) -> Result<usize, TooShort>
    ensures answer { result ≡ placed_answer at (three_lines counts.ask counts.found counts.seen counts.walked ids.now distances.now trail.now) output.old }
    ensures output { output.new ≡ placed_after at (three_lines counts.ask counts.found counts.seen counts.walked ids.now distances.now trail.now) output.old }
{
    let answer = Answer {
        found: counts,
        near: Near { ids, distances },
        trail: Trail { ids: trail },
    };
    placed(&answer, output, at)
}
