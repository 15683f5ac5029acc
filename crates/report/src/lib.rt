// What the program prints: an ask's lines from what was read, and all the lines of a sheet.
#![tactic(auto)]

mod found;
mod whole;

ghost use Rattle.std.specs.Prelude.{◌≡◌, length, replicate};
ghost use Rattle.rules.specs.Program.{lines_of, printed};
ghost use Rattle.search.specs.Answer.{asked};
ghost use Rattle.lines.specs.Placing.{placed_answer, placed_after};

use lines::{Found, TooShort};
use search::Ask;

// The lines of an ask, whose number is that of its place in a sheet. The buffers of the search have 128 cells, as many as a set has points and as a width
// allows, so that none is too short. They stay three, as the search is lent them, and output and place stay two, as in `lines`.
pub fn ask_lines(
    number: u16,
    ask: &Ask<'_>,
    output: &mut [u8],
    at: usize,
) -> Result<usize, TooShort>
    ensures answer { result ≡ placed_answer at (lines_of number (asked ask.now)) output.old }
    ensures output { output.new ≡ placed_after at (lines_of number (asked ask.now)) output.old }
{
    let mut ids = [0u16; 128];
    let mut distances = [0u32; 128];
    let mut trail = [0u16; 128];
    let ask_number = usize::from(number);
    match search::search(ask, &mut ids, &mut distances, &mut trail) {
        Ok(counts) => {
            let counts = Found {
                ask: ask_number,
                found: counts.found,
                seen: counts.seen,
                walked: counts.walked,
            };
            found::found_lines(counts, &ids, &distances, &trail, output, at)
        }
        Err(refusal) => {
            lines::ask_refused_line(ask_number, usize::from(u8::from(refusal)), output, at)
        }
    }
}

// A blank page with room for the lines of any sheet. It stays an array: nothing in the library allocates.
pub fn page() -> [u8; 270000]
    ensures result_len { length result ≡ 270000 }
    ensures blank { result ≡ replicate 270000 0 }
{
    [0; 270000]
}

// All that the program prints for a sheet. It is put together on a page first, so that an output that is too short keeps all it held.
pub fn print(sheet: &[u8], output: &mut [u8], at: usize) -> Result<usize, TooShort>
    ensures answer { result ≡ placed_answer at (printed sheet.now) output.old }
    ensures output { output.new ≡ placed_after at (printed sheet.now) output.old }
{
    let mut lines = page();
    let end = whole::fill(sheet, &mut lines)?;
    lines::place(&lines[..end], output, at)
}
