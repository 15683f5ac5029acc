// The walk record, and what the entries answer.
use space::Refusal;

// The walk record: the caller keeps it, and each step changes it.
#[derive(Clone, Copy, Debug, PartialEq, Eq)]
pub struct Walk {
    pub current: u16,
    pub moves: u16,
}

#[derive(Clone, Copy, Debug, PartialEq, Eq)]
pub enum Step {
    Moved,
    AtEnd,
}

// A step's answer, and the record after it. Stays a struct of both: `step_at` hands the record back whatever the answer is (`step_at_fixed`).
#[derive(Clone, Copy, Debug, PartialEq, Eq)]
pub struct Stepped {
    pub answer: Result<Step, Refusal>,
    pub walk: Walk,
}

// Where the whole walk ends: the last id, its D and the moves.
#[derive(Clone, Copy, Debug, PartialEq, Eq)]
pub struct End {
    pub last: u16,
    pub distance: u32,
    pub moves: u16,
}
