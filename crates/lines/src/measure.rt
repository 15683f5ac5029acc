// How long numbers are.
ghost use Rattle.lines.specs.Placing.{Digits, PartLength};

// How many decimal digits x has. A single digit, which is common, is asked for first, and a large number loses four digits a turn. Always inlined, beside what
// writes the number.
#[inline(always)]
fn digits(x: usize) -> usize
    ensures { Digits x result }
{
    if x < 10 {
        return 1;
    }
    let mut count = 1;
    let mut rest = x;
    while 100 <= rest {
        if rest < 10_000 {
            rest = rest / 100;
            count += 2;
        } else {
            rest = rest / 10_000;
            count += 4;
        }
    }
    if 10 <= rest {
        count += 1;
    }
    count
}

// The length of a number with the space before it.
pub(crate) fn part_length(x: usize) -> usize
    ensures { PartLength x result }
{
    1 + digits(x)
}
