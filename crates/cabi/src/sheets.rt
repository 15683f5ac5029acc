// Test sheets.
ghost use Rattle.std.specs.Prelude.{◌≡◌, length};
ghost use Rattle.rules.specs.Sheet.{contents};
ghost use Rattle.rules.specs.Refusals.{vectors_refusal};
ghost use Rattle.rules.specs.Entries.{write_answer, output_after, header_answer, vectors_after, ask_answer, query_after};
ghost use Rattle.cabi.specs.Plain.{number_of, cell_after};

use crate::code;
use sheet::{Contents, Head};

// Writes a sheet. `written` becomes its length.
pub fn magpiehinge_write(
    n: usize,
    d: usize,
    c: usize,
    asks: usize,
    vectors: &[i8],
    numbers: &[u16],
    queries: &[i8],
    output: &mut [u8],
    written: &mut usize,
) -> u8
    ensures refusal { result
        ≡ number_of (write_answer (contents n d c asks vectors.now numbers.now queries.now) output.old) }
    ensures output { output.new
        ≡ output_after (contents n d c asks vectors.now numbers.now queries.now) output.old }
    ensures written { written.new
        ≡ cell_after (write_answer (contents n d c asks vectors.now numbers.now queries.now) output.old) (λ l. l) written.old }
{
    let head = Head { n, d, c, asks };
    let contents = Contents {
        head,
        vectors,
        numbers,
        queries,
    };
    match sheet::write(&contents, output) {
        Ok(length) => {
            *written = length;
            0
        }
        Err(refusal) => u8::from(refusal),
    }
}

// Reads n, d, the coordinate width and the ask count of a sheet.
pub fn magpiehinge_header(
    sheet: &[u8],
    n: &mut usize,
    d: &mut usize,
    c: &mut usize,
    asks: &mut usize,
) -> u8
    ensures refusal { result ≡ number_of (header_answer sheet.now) }
    ensures n { n.new ≡ cell_after (header_answer sheet.now) (λ c. c.n) n.old }
    ensures d { d.new ≡ cell_after (header_answer sheet.now) (λ c. c.d) d.old }
    ensures c { c.new ≡ cell_after (header_answer sheet.now) (λ c. c.c) c.old }
    ensures asks { asks.new ≡ cell_after (header_answer sheet.now) (λ c. c.asks) asks.old }
{
    match sheet::header(sheet) {
        Ok(head) => {
            *n = head.n;
            *d = head.d;
            *c = head.c;
            *asks = head.asks;
            0
        }
        Err(refusal) => u8::from(refusal),
    }
}

// Reads the vectors of a sheet into n × d cells.
pub fn magpiehinge_vectors(sheet: &[u8], buffer: &mut [i8]) -> u8
    ensures { (result ≡ vectors_refusal sheet.now (length buffer.old)) × (buffer.new ≡ vectors_after sheet.now buffer.old) }
{
    code(sheet::vectors(sheet, buffer))
}

// Reads one ask of a sheet: its four numbers, and its query into d cells.
pub fn magpiehinge_ask(
    sheet: &[u8],
    number: u16,
    query: &mut [i8],
    start: &mut u16,
    width: &mut u16,
    k: &mut u16,
    threshold: &mut u16,
) -> u8
    ensures refusal { result ≡ number_of (ask_answer sheet.now number query.old) }
    ensures query { query.new ≡ query_after sheet.now number query.old }
    ensures start { start.new
        ≡ cell_after (ask_answer sheet.now number query.old) (λ c. c.start) start.old }
    ensures width { width.new
        ≡ cell_after (ask_answer sheet.now number query.old) (λ c. c.width) width.old }
    ensures k { k.new ≡ cell_after (ask_answer sheet.now number query.old) (λ c. c.k) k.old }
    ensures threshold { threshold.new
        ≡ cell_after (ask_answer sheet.now number query.old) (λ c. c.threshold) threshold.old }
{
    match sheet::ask(sheet, number, query) {
        Ok(numbers) => {
            *start = numbers.start;
            *width = numbers.width;
            *k = numbers.k;
            *threshold = numbers.threshold;
            0
        }
        Err(refusal) => u8::from(refusal),
    }
}
