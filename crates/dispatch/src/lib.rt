// The dispatcher: a state by value, and every event a method that hands it back beside its answer and report.
#![tactic(auto)]

mod load;
mod methods;
mod readers;
mod start;
mod store;

use memory::sizes::{HELD_CELLS, QUEUE_CELLS};
use rules::{Answer, Priority, Report, Roster, Task};

// All fields are public: whatever a caller hands in gets an answer. Cells past a count or past a row's length are no part of it.
// Bit p - 1 of the marks is on exactly where the ready queue for p is not empty; otherwise the state is unsound.
// Arrays with counts and rows beside: callers have this layout (docs/LAYOUT.md), and any bytes of it get an answer.
#[derive(Clone, Copy)]
pub struct State {
    pub now: u64,
    pub running: Option<u8>,
    pub task_count: u8,
    pub object_count: u8,
    pub marks: u32,
    pub tasks: [Task; Roster::TASKS],
    pub held: [u8; HELD_CELLS],
    pub ceilings: [Priority; Roster::OBJECTS],
    pub queues: [u8; QUEUE_CELLS],
}

// What an event gives back.
// A state beside the answer and no Result: a refusal hands the state back too.
#[derive(Clone, Copy)]
pub struct Stepped {
    pub answer: Answer,
    pub report: Report,
    pub state: State,
}

// What a fresh start gives back: it is no event, so it has no report.
// A state beside the answer and no Result, here too.
#[derive(Clone, Copy)]
pub struct Started {
    pub answer: Answer,
    pub state: State,
}
