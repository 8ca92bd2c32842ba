// The kinds of the roster file: its sizes, its steps and their codes, and what its form and check answer. Their meaning is in specs/.
#![tactic(auto)]

ghost use Rattle.std.specs.Prelude.{◌≡◌, ℕ};
ghost use Rattle.rules.specs.Answers.{number_by};
ghost use Rattle.format.specs.Answers.{fault_number, fault_task, fault_position};

use rules::{Numbered, Priority};

// The sizes of a roster file's parts and its mark, all of this kind; how large it may be is said by Roster of the rules.
#[derive(Clone, Copy)]
pub struct File;

impl File {
    pub const TRAILER: usize = 8;

    pub const TASK_ROW: u32 = 6;

    pub const OBJECT_ROW: u32 = 2;

    pub const STEP: usize = 4;

    pub const FIRST_MARK: u8 = 82;

    pub const SECOND_MARK: u8 = 53;
}

// A step of a script. Finish is what is asked at the script's end; bytes that are no step read as it, and form refuses them.
#[derive(Clone, Copy)]
pub enum Step {
    Enter(u8),
    Leave(u8),
    Delay(u16),
    Work,
    Suspend,
    Release(u8),
    Set(u8, Priority),
    Again,
    Finish,
}

// Bytes of the file, read as steps in one place: an enum of them, unlike PlaceKind, would be no field and no result anywhere.
impl Step {
    pub const ENTER: u8 = 1;

    pub const LEAVE: u8 = 2;

    pub const DELAY: u8 = 3;

    pub const WORK: u8 = 4;

    pub const SUSPEND: u8 = 5;

    pub const RELEASE: u8 = 6;

    pub const SET: u8 = 7;

    pub const AGAIN: u8 = 8;
}

// What is wrong with a roster or with what is asked of one; a fault of a step with its task and step.
// Task and step stand in each of five cases: a struct of both would be one more name in every match and clause.
#[derive(Clone, Copy, PartialEq, Eq)]
pub enum Fault {
    NoSuchTask,
    NoSuchObject,
    BadLength,
    BadMark,
    BadCounts,
    BadLayout,
    BadValues,
    BadStep(u8, usize),
    WhileHeld(u8, usize),
    LowCeiling(u8, usize),
    NotInnermost(u8, usize),
    OtherTask(u8, usize),
}

// What the form, the check and a reader answer.
pub type Verdict = Result<(), Fault>;

// By hand: cases with a place have no discriminants, and the numbers, with their gaps, are the scope's.
impl Numbered for Fault {
    ghost number = { fault_number };

    fn number(self) -> u8 {
        match self {
            Fault::NoSuchTask => 1,
            Fault::NoSuchObject => 2,
            Fault::BadLength => 11,
            Fault::BadMark => 12,
            Fault::BadCounts => 13,
            Fault::BadLayout => 14,
            Fault::BadValues => 15,
            Fault::BadStep(_, _) => 16,
            Fault::WhileHeld(_, _) => 17,
            Fault::LowCeiling(_, _) => 18,
            Fault::NotInnermost(_, _) => 19,
            Fault::OtherTask(_, _) => 20,
        }
    }
}

// What has a number, and a task and a step, which it names by its position in the script: 0 and 0 where it is about none.
// 0 and 0 and no Option: `fault_task` and `fault_position` say so, and C and the printed lines have them as numbers.
pub trait Placed: Numbered {
    ghost task: { Self → ℕ };

    ghost position: { Self → ℕ };

    fn task(self) -> u8
        ensures { result ≡ task self };

    fn position(self) -> usize
        ensures { result ≡ position self };
}

// By hand: no derive tells which faults have a place; the arms are those of fault_task and fault_position.
impl Placed for Fault {
    ghost task = { fault_task };

    ghost position = { fault_position };

    fn task(self) -> u8 {
        match self {
            Fault::BadStep(t, _)
            | Fault::WhileHeld(t, _)
            | Fault::LowCeiling(t, _)
            | Fault::NotInnermost(t, _)
            | Fault::OtherTask(t, _) => t,
            _ => 0,
        }
    }

    fn position(self) -> usize {
        match self {
            Fault::BadStep(_, k)
            | Fault::WhileHeld(_, k)
            | Fault::LowCeiling(_, k)
            | Fault::NotInnermost(_, k)
            | Fault::OtherTask(_, k) => k,
            _ => 0,
        }
    }
}

// Ok is at 0, 0. A match, as number_by is one: err().map_or(0, ..) says no more, and takes a closure for each.
impl<E: Placed> Placed for Result<(), E> {
    ghost task = { number_by E.task };

    ghost position = { number_by E.position };

    fn task(self) -> u8 {
        match self {
            Ok(()) => 0,
            Err(e) => e.task(),
        }
    }

    fn position(self) -> usize {
        match self {
            Ok(()) => 0,
            Err(e) => e.position(),
        }
    }
}
