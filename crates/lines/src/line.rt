// The lines, each as its words and numbers one after the other.
ghost use Rattle.std.specs.Prelude.{ℕ, List, ◌++◌};
ghost use Rattle.rules.specs.Lines.{part, parts, pairs, newline, set_line, found_line, ask_refused_line, near_line, trail_line, refused_line};
ghost use Rattle.lines.specs.Placing.{three_lines};
ghost use Rattle.lines.specs.Sinks.{Puts};

use crate::sink::Sink;
use crate::{Found, TooShort};

// A line, or several.
pub(crate) trait Line {
    ghost bytes: { Self → List ℕ };

    fn put<S: Sink>(&self, sink: &mut S) -> Result<(), TooShort>
        ensures { Puts S.room S.took sink.old (bytes self.now) sink.new result };
}

// A word, and the number that it names. This, `end` and `pair` are always inlined: a word's length is then known where it is copied, and costs no call.
#[inline(always)]
fn named<S: Sink>(word: &[u8], x: usize, sink: &mut S) -> Result<(), TooShort>
    ensures { Puts S.room S.took sink.old (word.now ++ part x) sink.new result }
{
    sink.put(word)?;
    sink.number(x)
}

// The newline after a line.
#[inline(always)]
fn end<S: Sink>(sink: &mut S) -> Result<(), TooShort>
    ensures { Puts S.room S.took sink.old newline sink.new result }
{
    sink.put(b"\n")
}

fn numbers<S: Sink>(ids: &[u16], sink: &mut S) -> Result<(), TooShort>
    ensures { Puts S.room S.took sink.old (parts ids.now) sink.new result }
{
    for id in ids {
        sink.number(usize::from(*id))?;
    }
    Ok(())
}

#[inline(always)]
fn pair<S: Sink>(id: usize, distance: usize, sink: &mut S) -> Result<(), TooShort>
    ensures { Puts S.room S.took sink.old (part id ++ part distance) sink.new result }
{
    sink.number(id)?;
    sink.number(distance)
}

fn number_pairs<S: Sink>(ids: &[u16], distances: &[u32], sink: &mut S) -> Result<(), TooShort>
    ensures { Puts S.room S.took sink.old (pairs ids.now distances.now) sink.new result }
{
    for (id, distance) in ids.iter().zip(distances) {
        // `usize::from` takes no `u32`: here the cast is the conversion.
        pair(usize::from(*id), *distance as usize, sink)?;
    }
    Ok(())
}

// Bytes as they are.
#[derive(Clone, Copy)]
pub(crate) struct Bytes<'a> {
    pub(crate) bytes: &'a [u8],
}

impl Line for Bytes<'_> {
    ghost bytes = { λ l. l.bytes.now };

    fn put<S: Sink>(&self, sink: &mut S) -> Result<(), TooShort> {
        sink.put(self.bytes)
    }
}

// set N D ASKS
#[derive(Clone, Copy)]
pub(crate) struct Set {
    pub(crate) n: usize,
    pub(crate) d: usize,
    pub(crate) asks: usize,
}

impl Line for Set {
    ghost bytes = { λ l. set_line l.n l.d l.asks };

    fn put<S: Sink>(&self, sink: &mut S) -> Result<(), TooShort> {
        named(b"set", self.n, sink)?;
        sink.number(self.d)?;
        sink.number(self.asks)?;
        end(sink)
    }
}

// refused R
#[derive(Clone, Copy)]
pub(crate) struct Refused {
    pub(crate) refusal: usize,
}

impl Line for Refused {
    ghost bytes = { λ l. refused_line l.refusal };

    fn put<S: Sink>(&self, sink: &mut S) -> Result<(), TooShort> {
        named(b"refused", self.refusal, sink)?;
        end(sink)
    }
}

// ask I refused R
#[derive(Clone, Copy)]
pub(crate) struct AskRefused {
    pub(crate) ask: usize,
    pub(crate) refusal: usize,
}

impl Line for AskRefused {
    ghost bytes = { λ l. ask_refused_line l.ask l.refusal };

    fn put<S: Sink>(&self, sink: &mut S) -> Result<(), TooShort> {
        named(b"ask", self.ask, sink)?;
        named(b" refused", self.refusal, sink)?;
        end(sink)
    }
}

// ask I found F seen S walked W
impl Line for Found {
    ghost bytes = { λ l. found_line l.ask l.found l.seen l.walked };

    fn put<S: Sink>(&self, sink: &mut S) -> Result<(), TooShort> {
        named(b"ask", self.ask, sink)?;
        named(b" found", self.found, sink)?;
        named(b" seen", self.seen, sink)?;
        named(b" walked", self.walked, sink)?;
        end(sink)
    }
}

// near ID D ID D ..
#[derive(Clone, Copy)]
pub(crate) struct Near<'a> {
    pub(crate) ids: &'a [u16],
    pub(crate) distances: &'a [u32],
}

impl Line for Near<'_> {
    ghost bytes = { λ l. near_line l.ids.now l.distances.now };

    fn put<S: Sink>(&self, sink: &mut S) -> Result<(), TooShort> {
        sink.put(b"near")?;
        number_pairs(self.ids, self.distances, sink)?;
        end(sink)
    }
}

// trail ID ID ..
#[derive(Clone, Copy)]
pub(crate) struct Trail<'a> {
    pub(crate) ids: &'a [u16],
}

impl Line for Trail<'_> {
    ghost bytes = { λ l. trail_line l.ids.now };

    fn put<S: Sink>(&self, sink: &mut S) -> Result<(), TooShort> {
        sink.put(b"trail")?;
        numbers(self.ids, sink)?;
        end(sink)
    }
}

// The three lines of an ask that is answered.
#[derive(Clone, Copy)]
pub(crate) struct Answer<'a> {
    pub(crate) found: Found,
    pub(crate) near: Near<'a>,
    pub(crate) trail: Trail<'a>,
}

impl Line for Answer<'_> {
    ghost bytes = { λ l. three_lines l.found.ask l.found.found l.found.seen l.found.walked l.near.ids.now l.near.distances.now l.trail.ids.now };

    fn put<S: Sink>(&self, sink: &mut S) -> Result<(), TooShort> {
        self.found.put(sink)?;
        self.near.put(sink)?;
        self.trail.put(sink)
    }
}
