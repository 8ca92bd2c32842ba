// What an event comes to in the engine.
ghost use Rattle.std.specs.Prelude.{◌≡◌};
ghost use Rattle.rules.specs.Answers.{number_of, report_number};
ghost use Rattle.memory.specs.Rulings.{answer_in, report_in};

use rules::{Answer, Refusal, Report};

// Accepted, with one of the three reports, or refused, with one of the nine answers of the table. Its number is the answer's, and sixteen
// times the report's, so that both are read without a jump; and it has no parts, since those would be handed back through memory.
// So it is an enum of its own and no Result of a report and a refusal.
#[derive(Clone, Copy, PartialEq, Eq)]
pub enum Ruling {
    Unchanged = 0,
    NoSuchTask = 1,
    NoSuchObject = 2,
    BadPriority = 3,
    BadReading = 4,
    NobodyRuns = 5,
    EndedTask = 6,
    InsideAction = 7,
    AboveCeiling = 8,
    NotInnermost = 9,
    Preempted = 16,
    Changed = 32,
}

// What a report's number counts.
const UNIT: u8 = 16;

impl Ruling {
    // The answer's number.
    pub fn number(self) -> u8
        ensures { result ≡ number_of (answer_in self) }
    {
        self as u8 % UNIT
    }

    // The report's number.
    pub fn report_number(self) -> u8
        ensures { result ≡ report_number (report_in self) }
    {
        self as u8 / UNIT
    }

    // A method and no From: one ruling is read in two ways, and the arms would be the same.
    pub fn answer(self) -> Answer
        ensures { result ≡ answer_in self }
    {
        match self {
            Ruling::Unchanged | Ruling::Preempted | Ruling::Changed => Ok(()),
            Ruling::NoSuchTask => Err(Refusal::NoSuchTask),
            Ruling::NoSuchObject => Err(Refusal::NoSuchObject),
            Ruling::BadPriority => Err(Refusal::BadPriority),
            Ruling::BadReading => Err(Refusal::BadReading),
            Ruling::NobodyRuns => Err(Refusal::NobodyRuns),
            Ruling::EndedTask => Err(Refusal::EndedTask),
            Ruling::InsideAction => Err(Refusal::InsideAction),
            Ruling::AboveCeiling => Err(Refusal::AboveCeiling),
            Ruling::NotInnermost => Err(Refusal::NotInnermost),
        }
    }

    pub fn report(self) -> Report
        ensures { result ≡ report_in self }
    {
        match self {
            Ruling::Preempted => Report::Preempted,
            Ruling::Changed => Report::Changed,
            _ => Report::Unchanged,
        }
    }
}
