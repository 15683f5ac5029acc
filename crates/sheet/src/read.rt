// Reading a sheet: its header, and the refusals that every reading looks for first.
ghost use Rattle.std.specs.Prelude.{◌≡◌, ◌≤◌, length, IfOk};
ghost use Rattle.rules.specs.Refusals.{sheet_refusal};
ghost use Rattle.space.specs.Told.{number_in};
ghost use Rattle.sheet.specs.Answers.{head_of};

use crate::Head;
use crate::place::{Place, field_from};
use space::Refusal;

// The header's four numbers, whatever the sheet is.
#[tactic(auto, using(laws::proofs::Fields::field_lt), unfolding(rules::specs::Sheet::points, rules::specs::Sheet::coords, rules::specs::Sheet::width, rules::specs::Sheet::ask_count))]
fn head(sheet: &[u8]) -> Head
    ensures value { result ≡ head_of sheet.now }
    ensures points { result.n ≤ 128 }
    ensures coordinates { result.d ≤ 64 }
    ensures width { (1 ≤ result.c) × (result.c ≤ 8) }
{
    let mut place = Place::open(sheet);
    Head {
        n: usize::from(place.take(7)) + 1,
        d: usize::from(place.take(6)) + 1,
        c: usize::from(place.take(3)) + 1,
        asks: usize::from(place.take(8)),
    }
}

// The refusals that every reading looks for first: 15 for under 3 bytes, 12, 15, 16 for length, 16 for filling. Where there is none, what the
// header says.
#[tactic(auto, unfolding(rules::specs::Refusals::sheet_refusal, rules::specs::Sheet::sheet_length, rules::specs::Bits::byte_count, rules::specs::Sheet::required, rules::specs::Sheet::filling))]
pub(crate) fn check(sheet: &[u8]) -> Result<Head, Refusal>
    ensures refusal { number_in result ≡ sheet_refusal sheet.now }
    ensures said { IfOk result (λ head. head ≡ head_of sheet.now) }
    ensures few { IfOk result (λ head. head.asks ≤ 127) }
{
    let bytes = sheet.len();
    if bytes < 3 {
        return Err(Refusal::Short);
    }
    let head = head(sheet);
    if 127 < head.asks {
        return Err(Refusal::Asks);
    }
    let bits = head.place(head.asks);
    let needed = bits.div_ceil(8);
    if bytes < needed {
        return Err(Refusal::Short);
    }
    if needed < bytes {
        return Err(Refusal::Long);
    }
    if 0 < field_from(sheet, bits, bytes * 8 - bits) {
        return Err(Refusal::Long);
    }
    Ok(head)
}
