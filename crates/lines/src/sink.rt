// Where the bytes of a line go: a count, which shows whether they fit, or a page.
ghost use Rattle.std.specs.Prelude.{ℕ, ◌≤◌, List, length};
ghost use Rattle.rules.specs.Lines.{part};
ghost use Rattle.lines.specs.Sinks.{Puts, SinkLaws};

use crate::TooShort;
use crate::measure::part_length;
use crate::put::put_decimal;

pub(crate) trait Sink {
    // How many more bytes fit.
    ghost room: { Self → ℕ };

    // That bytes were put between two states.
    ghost took: { Self → List ℕ → Self → Type 0 };

    fn put(&mut self, bytes: &[u8]) -> Result<(), TooShort>
        ensures { Puts room took self.old bytes.now self.new result };

    // A space and the decimal digits of a number. Most of a line is these, so each sink does them itself: a text to be put would be made twice and copied.
    fn number(&mut self, x: usize) -> Result<(), TooShort>
        ensures { Puts room took self.old (part x) self.new result };

    ghost laws: { SinkLaws room took };
}

// Counts the bytes, and keeps none.
#[derive(Clone, Copy)]
pub(crate) struct Room {
    pub(crate) left: usize,
}

impl Sink for Room {
    ghost use Rattle.lines.specs.TwoSinks.{room_left, RoomTook, room_laws};

    ghost room = { room_left };

    ghost took = { RoomTook };

    ghost laws = { room_laws };

    fn put(&mut self, bytes: &[u8]) -> Result<(), TooShort> {
        self.left = self.left.checked_sub(bytes.len()).ok_or(TooShort)?;
        Ok(())
    }

    fn number(&mut self, x: usize) -> Result<(), TooShort> {
        self.left = self.left.checked_sub(part_length(x)).ok_or(TooShort)?;
        Ok(())
    }
}

// Writes the bytes into a lent buffer, from a place on. Both methods are always inlined, so that the place stays in a register from one to the next.
#[derive(Drop)]
pub(crate) struct Page<'a> {
    pub(crate) output: &'a mut [u8],
    pub(crate) at: usize,
    ghost inside: { at ≤ length output.now },
}

impl Sink for Page<'_> {
    ghost use Rattle.lines.specs.TwoSinks.{page_room, PageTook, page_laws};

    ghost room = { page_room };

    ghost took = { PageTook };

    ghost laws = { page_laws };

    #[inline(always)]
    fn put(&mut self, bytes: &[u8]) -> Result<(), TooShort> {
        if self.output.len() - self.at < bytes.len() {
            return Err(TooShort);
        }
        let end = self.at + bytes.len();
        self.output[self.at..end].copy_from_slice(bytes);
        self.at = end;
        Ok(())
    }

    #[inline(always)]
    fn number(&mut self, x: usize) -> Result<(), TooShort> {
        let length = part_length(x);
        if self.output.len() - self.at < length {
            return Err(TooShort);
        }
        let end = self.at + length;
        self.output[self.at] = b' ';
        put_decimal(x, self.output, end);
        self.at = end;
        Ok(())
    }
}
