// What the writer of rosters answers. What it writes, and that each roster has one encoding, is in specs/.
#![tactic(auto)]

ghost use Rattle.std.specs.Prelude.{◌≡◌};
ghost use Rattle.encoding.specs.Answers.{error_number, error_task, error_position};
ghost use Rattle.encoding.specs.declared.WriteError.TheVariants.{Refused};

use format::{Fault, Placed};
use rules::Numbered;

// What is wrong with what was given (13 to 16, then 11), or a buffer shorter than the file.
#[derive(Clone, Copy, PartialEq, Eq)]
pub enum WriteError {
    Refused(Fault),
    ShortBuffer,
}

// What the writer answers.
pub type WriteAnswer = Result<(), WriteError>;

impl From<Fault> for WriteError {
    ghost from_gives = { λ f e. e ≡ Refused f };

    fn from(fault: Fault) -> WriteError {
        WriteError::Refused(fault)
    }
}

// By hand: a fault keeps its own number, so the cases have no discriminants.
impl Numbered for WriteError {
    ghost number = { error_number };

    fn number(self) -> u8 {
        match self {
            WriteError::Refused(f) => f.number(),
            WriteError::ShortBuffer => 22,
        }
    }
}

// By hand: a fault keeps its own place, and a short buffer is at 0, 0; no derive gives it.
impl Placed for WriteError {
    ghost task = { error_task };

    ghost position = { error_position };

    fn task(self) -> u8 {
        match self {
            WriteError::Refused(f) => f.task(),
            WriteError::ShortBuffer => 0,
        }
    }

    fn position(self) -> usize {
        match self {
            WriteError::Refused(f) => f.position(),
            WriteError::ShortBuffer => 0,
        }
    }
}
