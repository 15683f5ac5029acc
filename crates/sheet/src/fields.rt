// Fields of a sheet: numbers of up to 16 bits that start at any bit, the most significant bit first.

ghost use Rattle.std.specs.Prelude.{◌≡◌, ◌+◌, ◌-◌, ◌*◌, ◌≤◌, ◌<◌, min, length, get_or};
ghost use Rattle.rules.specs.Sheet.{field_at};

// How many bits a field has that is to start at bit `at` of so many bytes: no more than 16, and none past the end. A sheet of 2^61 bytes
// has more bits than a number counts, so the bytes left are counted first, and three of them have room for 16 bits wherever these start.
fn bits_at(bytes: usize, at: usize, bits: usize) -> usize
    ensures { result ≡ min (min bits 16) (bytes * 8 - at) }
{
    let first = at / 8;
    if bytes <= first {
        return 0;
    }
    let left = bytes - first;
    let most = bits.min(16);
    // Stays: the test, which all but a sheet's last fields pass. Without it the vectors of a small sheet take 1.4 to 1.8 times as long to be read.
    if 3 <= left {
        return most;
    }
    most.min(left * 8 - at % 8)
}

// A byte, or 0 past the end.
fn byte_at(sheet: &[u8], i: usize) -> u32
    ensures value { result ≡ get_or sheet.now i 0 }
    ensures small { result < 256 }
{
    u32::from(sheet.get(i).copied().unwrap_or(0))
}

// Three bytes from i on as one number of 24 bits: a field of 16 bits lies in it, wherever in the first byte it starts.
fn three_at(sheet: &[u8], i: usize) -> u32
    requires { i ≤ 2305843009213693951 }
    ensures { result ≡ (get_or sheet.now i 0 * 256 + get_or sheet.now (i + 1) 0) * 256 + get_or sheet.now (i + 2) 0 }
{
    (byte_at(sheet, i) * 256 + byte_at(sheet, i + 1)) * 256 + byte_at(sheet, i + 2)
}

// The number in the bits from bit `at` on, of which at most 16 are read. A field ends where the sheet does.
pub(crate) fn field_at(sheet: &[u8], at: usize, bits: usize) -> u16
    ensures { result ≡ field_at sheet.now at (min bits 16) }
{
    let there = bits_at(sheet.len(), at, bits);
    let three = three_at(sheet, at / 8);
    // At most 16 bits are left, so that the cast loses none; `try_from` and `unwrap` would say the same longer.
    ((three >> (24 - at % 8 - there)) % (1 << there)) as u16
}
