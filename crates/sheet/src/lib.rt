// Writes and reads test sheets (document 01, "Test sheet").
#![tactic(auto)]

mod fields;
pub mod place;
mod put;
mod read;
mod refuse;
mod values;

ghost use Rattle.std.specs.Prelude.{◌≡◌, ◌+◌, ◌^◌, ◌≤◌, ◌<◌, length, drop};
ghost use Rattle.rules.specs.Bits.{unpacked};
ghost use Rattle.rules.specs.Sheet.{bit_count, numbers_in};
ghost use Rattle.rules.specs.Refusals.{vectors_refusal};
ghost use Rattle.rules.specs.Entries.{write_answer, output_after, header_answer, vectors_after, ask_answer, query_after};
ghost use Rattle.space.specs.Told.{number_in};
ghost use Rattle.sheet.specs.Answers.{held, row_of, write_told, head_told, ask_told};

use crate::place::Place;
use crate::read::check;
use crate::values::Width;
use space::Refusal;

// What a sheet's header holds: n points of d coordinates, the coordinate width c and the ask count.
#[derive(Clone, Copy)]
pub struct Head {
    pub n: usize,
    pub d: usize,
    pub c: usize,
    pub asks: usize,
}

// What a sheet is written of: the points' coordinates, each in c bits, and for each ask four numbers (start, width, k, threshold) and
// a query. Numbers and queries stay flat, one ask after the other: so C lends them, and so document 01 counts them.
#[derive(Clone, Copy)]
pub struct Contents<'a> {
    pub head: Head,
    pub vectors: &'a [i8],
    pub numbers: &'a [u16],
    pub queries: &'a [i8],
}

// One ask's four numbers.
#[derive(Clone, Copy)]
pub struct Numbers {
    pub start: u16,
    pub width: u16,
    pub k: u16,
    pub threshold: u16,
}

impl Head {
    // The bit where an ask starts. Where there are as many asks, these are all the bits before the filling.
    #[tactic(auto, unfolding(rules::specs::Sheet::bit_count))]
    fn place(self, ask: usize) -> usize
        requires points { self.n ≤ 128 }
        requires coordinates { self.d ≤ 64 }
        requires width { self.c ≤ 8 }
        requires few { ask ≤ 127 }
        ensures value { result ≡ bit_count self.n self.d self.c ask }
        ensures small { result ≤ 135156 }
    {
        24 + (self.n * self.d * self.c + ask * (36 + self.d * self.c))
    }
}

impl Numbers {
    // An ask's numbers at a place, which moves past them.
    fn read(place: &mut Place<'_>) -> Numbers
        requires { place.old.next < 2 ^ 20 }
        ensures value { row_of result ≡ numbers_in (drop place.old.next (unpacked place.old.sheet.now)) }
        ensures same { place.new.sheet ≡ place.old.sheet }
        ensures moved { place.new.next ≡ place.old.next + 36 }
    {
        Numbers {
            start: place.take(7),
            width: place.take(7) + 1,
            k: place.take(7) + 1,
            threshold: place.take(15),
        }
    }
}

// The numbers of an ask, as the writer is given them.
impl From<[u16; 4]> for Numbers {
    ghost from_gives = { λ row numbers. row_of numbers ≡ row };

    fn from([start, width, k, threshold]: [u16; 4]) -> Numbers {
        Numbers {
            start,
            width,
            k,
            threshold,
        }
    }
}

// Writes a sheet. Answers its length, and leaves the bytes past it as they were.
#[tactic(auto, unfolding(rules::specs::Entries::write_answer, rules::specs::Entries::output_after, rules::specs::Entries::write_refused, rules::specs::Outcome::outcome, rules::specs::Outcome::after))]
pub fn write(contents: &Contents<'_>, output: &mut [u8]) -> Result<usize, Refusal>
    ensures value { write_told result ≡ write_answer (held contents.now) output.old }
    ensures output { output.new ≡ output_after (held contents.now) output.old }
{
    let sheet = contents.check(output.len())?;
    Ok(sheet.put(output))
}

// Reads n, d, c and the ask count.
#[tactic(auto, using(crate::proofs::Entered::told_is), unfolding(rules::specs::Entries::header_answer))]
pub fn header(sheet: &[u8]) -> Result<Head, Refusal>
    ensures { head_told result ≡ header_answer sheet.now }
{
    check(sheet)
}

// Reads the vectors into a buffer of n × d cells.
#[tactic(auto, using(crate::proofs::Reading::head_small, crate::proofs::Reading::products_small, crate::proofs::Reading::vectors_small), unfolding(rules::specs::Entries::vectors_after, rules::specs::Sheet::vectors_of, rules::specs::Refusals::vectors_refusal, rules::specs::Outcome::or_else, rules::specs::Outcome::after))]
pub fn vectors(sheet: &[u8], buffer: &mut [i8]) -> Result<(), Refusal>
    ensures value { number_in result ≡ vectors_refusal sheet.now (length buffer.old) }
    ensures buffer { buffer.new ≡ vectors_after sheet.now buffer.old }
{
    let head = check(sheet)?;
    if buffer.len() != head.n * head.d {
        return Err(Refusal::Vectors);
    }
    Place::open(sheet)
        .past(24)
        .fill(Width { c: head.c }, buffer);
    Ok(())
}

// Reads the four numbers of one ask, and its query into a buffer of d cells.
#[tactic(auto, using(crate::proofs::Reading::head_small, crate::proofs::Reading::query_small), unfolding(rules::specs::Entries::ask_answer, rules::specs::Entries::query_after, rules::specs::Refusals::one_ask_refusal, rules::specs::Outcome::or_else, rules::specs::Outcome::after, rules::specs::Outcome::outcome))]
pub fn ask(sheet: &[u8], number: u16, query: &mut [i8]) -> Result<Numbers, Refusal>
    ensures value { ask_told result ≡ ask_answer sheet.now number query.old }
    ensures query { query.new ≡ query_after sheet.now number query.old }
{
    let head = check(sheet)?;
    let number = usize::from(number);
    if head.asks <= number {
        return Err(Refusal::AskNumber);
    }
    if query.len() != head.d {
        return Err(Refusal::Query);
    }
    let mut place = Place::open(sheet).past(head.place(number));
    let numbers = Numbers::read(&mut place);
    place.fill(Width { c: head.c }, query);
    Ok(numbers)
}
