// A value in c bits: two's complement, which the library's conversions and shifts do.

ghost use Rattle.std.specs.Prelude.{◌≡◌, ◌^◌, ◌≤◌, ◌<◌};
ghost use Rattle.rules.specs.Bits.{signed, fits, all_fit};

// A coordinate width.
#[derive(Clone, Copy)]
pub(crate) struct Width {
    pub(crate) c: usize,
    ghost some: { 1 ≤ c },
    ghost few: { c ≤ 8 },
}

impl Width {
    // The value of a number of c bits: its bits, moved to the byte's front and back, bring their sign along.
    pub(crate) fn value(self, u: u16) -> i8
        requires { u < 2 ^ self.c }
        ensures { result ≡ signed self.c u }
    {
        let rest = 8 - self.c;
        // A number of c bits moved to a byte's front is a byte, so that the cast loses nothing.
        ((u << rest) as u8).cast_signed() >> rest
    }

    fn fits(self, z: i8) -> bool
        ensures { result ≡ fits self.c z }
    {
        let half = 1i16 << (self.c - 1);
        (-half..half).contains(&i16::from(z))
    }

    pub(crate) fn all_fit(self, values: &[i8]) -> bool
        ensures { result ≡ all_fit self.c values.now }
    {
        values.iter().all(|z| self.fits(*z))
    }
}
