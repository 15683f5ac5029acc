// The writer's refusals, in its order: 1, 2, 11, 12, 3, 5; then ask by ask 6, 7, 8, 9; then 13, 14.
ghost use Rattle.std.specs.Prelude.{◌≡◌, [], ◌∷◌, ◌*◌, ◌/◌, ◌≤◌, length, IfOk, OnOk};
ghost use Rattle.rules.specs.Sheet.{sheet_length};
ghost use Rattle.rules.specs.Outcome.{first_of};
ghost use Rattle.rules.specs.Refusals.{refuse1, refuse2, refuse3, refuse5, refuse11, refuse12, ask_refusal, asks_refusal, writer_refusal};
ghost use Rattle.space.specs.Told.{number_in};
ghost use Rattle.laws.proofs.Writable.{Writable};
ghost use Rattle.sheet.specs.Answers.{held, row_of};

use crate::values::Width;
use crate::{Contents, Numbers};
use space::{Refusal, is_outside};

// Contents that are not refused, and the length of their sheet.
#[derive(Clone, Copy)]
pub(crate) struct Accepted<'a> {
    pub(crate) contents: Contents<'a>,
    pub(crate) length: usize,
    ghost can: { Writable (held contents) },
    ghost exact: { length ≡ sheet_length contents.head.n contents.head.d contents.head.c contents.head.asks },
}

impl<'a> Contents<'a> {
    // The limits and the lengths: 1, 2, 11, 12, 3, 5.
    fn check_shape(&self) -> Result<(), Refusal>
        ensures refusal { number_in result ≡ first_of (refuse1 self.now.head.n ∷ refuse2 self.now.head.d ∷ refuse11 self.now.head.c
            ∷ refuse12 self.now.head.asks (length self.now.numbers.now)
            ∷ refuse3 self.now.head.n self.now.head.d (length self.now.vectors.now)
            ∷ refuse5 (self.now.head.asks * self.now.head.d) (length self.now.queries.now) ∷ []) }
        ensures numbers { OnOk result (length self.now.numbers.now ≡ 4 * self.now.head.asks) }
    {
        let head = self.head;
        if is_outside(1, 128, head.n) {
            return Err(Refusal::Points);
        }
        if is_outside(1, 64, head.d) {
            return Err(Refusal::Coordinates);
        }
        if is_outside(1, 8, head.c) {
            return Err(Refusal::ValueWidth);
        }
        if 127 < head.asks || self.numbers.len() != 4 * head.asks {
            return Err(Refusal::Asks);
        }
        if self.vectors.len() != head.n * head.d {
            return Err(Refusal::Vectors);
        }
        if self.queries.len() != head.asks * head.d {
            return Err(Refusal::Query);
        }
        Ok(())
    }

    // All refusals of the writer; where there is none, the contents as what is not refused.
    #[tactic(auto, unfolding(rules::specs::Refusals::writer_refusal, rules::specs::Outcome::or_else, rules::specs::Sheet::sheet_length, rules::specs::Bits::byte_count))]
    pub(crate) fn check(&self, output: usize) -> Result<Accepted<'a>, Refusal>
        ensures refusal { number_in result
            ≡ writer_refusal self.now.head.n self.now.head.d self.now.head.c self.now.head.asks self.now.vectors.now self.now.numbers.now self.now.queries.now output }
        ensures same { IfOk result (λ sheet. sheet.contents ≡ self.now) }
        ensures room { IfOk result (λ sheet. sheet.length ≤ output) }
    {
        self.check_shape()?;
        check_asks(self.numbers)?;
        let head = self.head;
        let width = Width { c: head.c };
        if !(width.all_fit(self.vectors) && width.all_fit(self.queries)) {
            return Err(Refusal::Misfit);
        }
        let length = head.place(head.asks).div_ceil(8);
        if output < length {
            return Err(Refusal::Output);
        }
        Ok(Accepted {
            contents: *self,
            length,
        })
    }
}

// Ask by ask.
fn check_asks(numbers: &[u16]) -> Result<(), Refusal>
    ensures { number_in result ≡ asks_refusal (length numbers.now / 4) numbers.now }
{
    let rows = numbers.as_chunks::<4>().0;
    for row in rows {
        Numbers::from(*row).check()?;
    }
    Ok(())
}

impl Numbers {
    // One ask: 6, 7, 8, 9.
    #[tactic(auto, unfolding(rules::specs::Refusals::ask_refusal))]
    fn check(self) -> Result<(), Refusal>
        ensures { number_in result ≡ ask_refusal (row_of self) }
    {
        if 128 <= self.start {
            return Err(Refusal::Id);
        }
        if is_outside(1, 128, usize::from(self.width)) {
            return Err(Refusal::Width);
        }
        if is_outside(1, 128, usize::from(self.k)) {
            return Err(Refusal::Count);
        }
        if 32767 < self.threshold {
            return Err(Refusal::Threshold);
        }
        Ok(())
    }
}
