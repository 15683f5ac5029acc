// All the lines of a sheet, on a page.
ghost use Rattle.std.specs.Prelude.{◌≡◌, ◌*◌, ◌≤◌, ◌<◌, length};
ghost use Rattle.rules.specs.Sheet.{ask_count, vectors_of};
ghost use Rattle.rules.specs.Program.{ask_of, lines_of, asks_lines, printed};
ghost use Rattle.report.specs.Pages.{Paged, SheetGiven};

use crate::ask_lines;
use lines::TooShort;
use search::Ask;
use sheet::Head;
use space::{Question, Set};

// A sheet that is not refused, with its set, a table of it, and how many asks there are.
#[derive(Clone, Copy)]
struct Held<'a> {
    sheet: &'a [u8],
    set: Set<'a>,
    table: &'a [u16],
    asks: usize,
    ghost given: { SheetGiven sheet.now set.n set.d set.vectors.now },
    ghost asks_are: { asks ≡ ask_count sheet.now },
}

impl Held<'_> {
    // The lines of one ask.
    fn ask_lines(&self, number: u16, page: &mut [u8], at: usize) -> Result<usize, TooShort>
        requires { number < self.now.asks }
        ensures { Paged at (lines_of number (ask_of self.now.sheet.now self.now.table.now number)) page.old page.new result }
    {
        let mut cells = [0i8; 64];
        let query = &mut cells[..self.set.d];
        // It is not refused: there is such an ask, and the query has d cells. So any error serves, and this is the one at hand.
        let Ok(numbers) = sheet::ask(self.sheet, number, query) else {
            return Err(TooShort);
        };
        let question = Question {
            set: self.set,
            table: self.table,
            query,
            threshold: numbers.threshold,
        };
        let ask = Ask {
            question,
            start: numbers.start,
            width: numbers.width,
            k: numbers.k,
        };
        ask_lines(number, &ask, page, at)
    }

    // The lines of all asks, from a place on.
    fn asks_lines(&self, page: &mut [u8], at: usize) -> Result<usize, TooShort>
        requires { at ≤ length page.old }
        ensures { Paged at (asks_lines self.now.sheet.now self.now.table.now self.now.asks) page.old page.new result }
    {
        let mut end = at;
        for number in 0..self.asks {
            // A sheet has at most 127 asks, so that the cast loses nothing.
            end = self.ask_lines(number as u16, page, end)?;
        }
        Ok(end)
    }
}

// All the lines of a sheet that is not refused. The cells of the vectors and of the table are lent, as many as they need.
fn set_lines(
    sheet: &[u8],
    head: Head,
    vectors: &mut [i8],
    table: &mut [u16],
    page: &mut [u8],
) -> Result<usize, TooShort>
    requires given { SheetGiven sheet.now head.n head.d (vectors_of sheet.now) × (head.asks ≡ ask_count sheet.now) }
    requires room { (length vectors.old ≡ head.n * head.d) × (length table.old ≡ head.n * head.n) }
    ensures { Paged 0 (printed sheet.now) page.old page.new result }
{
    // Neither is refused: the header was taken, and the cells are as many as they need.
    let _ = sheet::vectors(sheet, vectors);
    let set = Set {
        n: head.n,
        d: head.d,
        vectors,
    };
    let _ = table::build(&set, table);
    let held = Held {
        sheet,
        set,
        table,
        asks: head.asks,
    };
    let first = lines::set_line(head.n, head.d, head.asks, page, 0)?;
    held.asks_lines(page, first)
}

// All the lines of a sheet, refused or not.
pub(crate) fn fill(sheet: &[u8], page: &mut [u8]) -> Result<usize, TooShort>
    ensures { Paged 0 (printed sheet.now) page.old page.new result }
{
    match sheet::header(sheet) {
        Ok(head) => {
            let mut vectors = [0i8; 8192];
            let mut table = [0u16; 16384];
            let cells = head.n * head.d;
            let square = head.n * head.n;
            set_lines(
                sheet,
                head,
                &mut vectors[..cells],
                &mut table[..square],
                page,
            )
        }
        Err(refusal) => lines::refused_line(usize::from(u8::from(refusal)), page, 0),
    }
}
