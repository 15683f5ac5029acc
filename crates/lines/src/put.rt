// Writing the digits of a number in their place.
ghost use Rattle.std.specs.Prelude.{◌≡◌, ◌+◌, ◌≤◌, ◌++◌, length, take, drop};
ghost use Rattle.rules.specs.Lines.{decimal};

use itoa::write_digits;

// Writes the digits of x so that they end at `end`, and answers where they start, of which the clauses speak. A single digit is asked for first, as `digits`
// does: where both stand in one place, the compiler asks once.
#[inline(always)]
pub(crate) fn put_decimal(x: usize, output: &mut [u8], end: usize) -> usize
    requires { (length (decimal x) ≤ end) × (end ≤ length output.old) }
    ensures start { result + length (decimal x) ≡ end }
    ensures written { drop result output.new ≡ decimal x ++ drop end output.old }
    ensures before { take result output.new ≡ take result output.old }
{
    if x < 10 {
        // Loses nothing: x is below 10.
        output[end - 1] = b'0' + x as u8;
        return end - 1;
    }
    // `write_digits` takes 64 bits, for which the library has no `From` of a usize.
    write_digits(x as u64, output, end)
}
