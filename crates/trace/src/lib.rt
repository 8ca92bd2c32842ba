// The kinds of a run: its events, decoded, and what it answers. Their meaning, and what a run writes, is in specs/.
#![tactic(auto)]

ghost use Rattle.std.specs.Prelude.{◌≡◌, ℕ};
ghost use Rattle.trace.specs.Answers.{error_number, error_task, error_position};
ghost use Rattle.trace.specs.declared.RunError.TheVariants.{BadRoster};

use format::{Fault, Placed};
use rules::Numbered;

pub mod sizes;

// An event of a run, decoded. Fields that an event does not use are gone; the others may be out of range.
#[derive(Clone, Copy, PartialEq, Eq)]
pub enum Input {
    Clock(u64),
    Release(u8),
    Step,
    Set(u8, u64),
}

// Why a run is refused: what the roster's check found, bad events, or a buffer shorter than needed.
#[derive(Clone, Copy, PartialEq, Eq)]
pub enum RunError {
    BadRoster(Fault),
    BadEvents,
    ShortBuffer,
}

// What a run answers: done, or why not.
pub type RunAnswer = Result<(), RunError>;

impl From<Fault> for RunError {
    ghost from_gives = { λ f e. e ≡ BadRoster f };

    fn from(f: Fault) -> RunError {
        RunError::BadRoster(f)
    }
}

// By hand: a fault keeps its own number, so the cases have no discriminants.
impl Numbered for RunError {
    ghost number = { error_number };

    fn number(self) -> u8 {
        match self {
            RunError::BadRoster(fault) => fault.number(),
            RunError::BadEvents => 21,
            RunError::ShortBuffer => 22,
        }
    }
}

// By hand: a fault keeps its own place, and bad events and a short buffer are at 0, 0; no derive gives it.
impl Placed for RunError {
    ghost task = { error_task };

    ghost position = { error_position };

    fn task(self) -> u8 {
        match self {
            RunError::BadRoster(fault) => fault.task(),
            _ => 0,
        }
    }

    fn position(self) -> usize {
        match self {
            RunError::BadRoster(fault) => fault.position(),
            _ => 0,
        }
    }
}
