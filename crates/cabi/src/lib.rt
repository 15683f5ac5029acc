// The library for other languages: every public entry on numbers and slices, as C calls it through `cabi_c`. Numbers stay numbers here, refusals and lengths
// too, and ids and distances two buffers: C has no other form. The result is the refusal's number, 0 for
// none, and results go to lent cells, which a refusal leaves as they were. include/magpiehinge.h says the same for C, where a slice is a pointer and a length.
#![tactic(auto)]

ghost use Rattle.std.specs.Prelude.{◌≡◌};
ghost use Rattle.space.specs.Told.{number_in};
ghost use Rattle.walk.specs.Answers.{step_is};
ghost use Rattle.cabi.specs.Plain.{moved_bit};

use space::Refusal;
use walk::Step;

pub mod searches;
pub mod sets;
pub mod sheets;
pub mod walks;

// The number of an answer that gives nothing but that it is not refused.
fn code(answer: Result<(), Refusal>) -> u8
    ensures { result ≡ number_in answer }
{
    match answer {
        Ok(()) => 0,
        Err(refusal) => u8::from(refusal),
    }
}

// 1 for "moved", 0 for "at end".
fn moved_bit(step: Step) -> u8
    ensures { result ≡ moved_bit (step_is step) }
{
    match step {
        Step::Moved => 1,
        Step::AtEnd => 0,
    }
}
