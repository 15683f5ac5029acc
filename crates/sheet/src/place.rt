// The reading place: it keeps the sheet and the next bit. All reading goes by it, and `field_from` reads by it for those who know a bit's number.
ghost use Rattle.std.specs.Prelude.{◌≡◌, ◌+◌, ◌*◌, ◌^◌, ◌≤◌, ◌<◌, min, length, drop};
ghost use Rattle.rules.specs.Bits.{values, unpacked};
ghost use Rattle.rules.specs.Sheet.{field_at};
ghost use Rattle.sheet.specs.Past.{past_at};

use crate::fields::field_at;
use crate::values::Width;

#[derive(Clone, Copy)]
pub struct Place<'a> {
    pub sheet: &'a [u8],
    pub next: usize,
}

impl<'a> Place<'a> {
    // The place before the first bit.
    pub fn open(sheet: &'a [u8]) -> Place<'a>
        ensures { (result.sheet ≡ sheet.entry) × (result.next ≡ 0) }
    {
        Place { sheet, next: 0 }
    }

    // The place so many bits further on.
    pub fn past(self, bits: usize) -> Place<'a>
        ensures { (result.sheet ≡ self.entry.sheet) × (result.next ≡ past_at self.entry.next bits) }
    {
        Place {
            sheet: self.sheet,
            next: self.next.saturating_add(bits),
        }
    }

    // The number in the next bits, of which at most 16 are read. A field ends where the sheet does.
    pub fn field(self, bits: usize) -> u16
        ensures { result ≡ field_at self.entry.sheet.now self.entry.next (min bits 16) }
    {
        field_at(self.sheet, self.next, bits)
    }

    // The number in the next bits, of which at most 16 are read; the place moves past them.
    pub(crate) fn take(&mut self, bits: usize) -> u16
        ensures value { result ≡ field_at self.old.sheet.now self.old.next (min bits 16) }
        ensures same { self.new.sheet ≡ self.old.sheet }
        ensures moved { self.new.next ≡ past_at self.old.next bits }
    {
        let number = self.field(bits);
        *self = self.past(bits);
        number
    }

    // Fills a buffer with values of that width.
    pub(crate) fn fill(mut self, width: Width, buffer: &mut [i8])
        requires { self.next + length buffer.old * width.c < 2 ^ 20 }
        ensures { buffer.new ≡ values width.c (length buffer.old) (drop self.entry.next (unpacked self.entry.sheet.now)) }
    {
        for cell in buffer.iter_mut() {
            *cell = width.value(self.take(width.c));
        }
    }
}

// The number in the bits from bit `at` on, by way of a reading place.
pub fn field_from(sheet: &[u8], at: usize, bits: usize) -> u16
    ensures { result ≡ field_at sheet.now at (min bits 16) }
{
    Place::open(sheet).past(at).field(bits)
}
