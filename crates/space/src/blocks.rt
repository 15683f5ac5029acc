// D in blocks of coordinates. The compiler makes wide code of a block whose terms are written out, and of a difference that is a byte. One function for
// each size of block stays: with the size as a const parameter and a loop, D took 16.9 ns against 8.8 at 64 coordinates.
ghost use Rattle.std.specs.Prelude.{◌+◌, ◌<◌, ◌≤◌, length};
ghost use Rattle.space.specs.Pairs.{Pairs};

// The squared difference at place i.
pub(crate) fn pair(a: &[i8], b: &[i8], i: usize) -> u32
    requires { (i < length a.now) × (i < length b.now) }
    ensures { Pairs a.now b.now i 1 result }
{
    let gap = u32::from(a[i].abs_diff(b[i]));
    gap * gap
}

fn four(a: &[i8], b: &[i8], i: usize) -> u32
    requires { (i + 4 ≤ length a.now) × (i + 4 ≤ length b.now) }
    ensures { Pairs a.now b.now i 4 result }
{
    pair(a, b, i) + pair(a, b, i + 1) + pair(a, b, i + 2) + pair(a, b, i + 3)
}

pub(crate) fn sixteen(a: &[i8], b: &[i8], i: usize) -> u32
    requires { (i + 16 ≤ length a.now) × (i + 16 ≤ length b.now) }
    ensures { Pairs a.now b.now i 16 result }
{
    four(a, b, i) + four(a, b, i + 4) + four(a, b, i + 8) + four(a, b, i + 12)
}

pub(crate) fn thirty_two(a: &[i8], b: &[i8], i: usize) -> u32
    requires { (i + 32 ≤ length a.now) × (i + 32 ≤ length b.now) }
    ensures { Pairs a.now b.now i 32 result }
{
    four(a, b, i)
        + four(a, b, i + 4)
        + four(a, b, i + 8)
        + four(a, b, i + 12)
        + four(a, b, i + 16)
        + four(a, b, i + 20)
        + four(a, b, i + 24)
        + four(a, b, i + 28)
}
