// Where a state's bytes have each part; specs/ has the same.
use memory::sizes::{HELD_CELLS, QUEUE_CELLS};
use rules::Roster;

// The head: now, who runs, the counts, the word of marks.
pub const HEAD_SIZE: usize = 16;

pub const RUNNING_AT: usize = 8;

pub const TASK_COUNT_AT: usize = 9;

pub const OBJECT_COUNT_AT: usize = 10;

pub const MARKS_AT: usize = 12;

// A byte of the layout that callers in C and Ada have; in the code nobody is None.
pub const NOBODY: u8 = 255;

// A task row: due time, place kind, base, whether a base waits, that base, permit.
pub const TASK_SIZE: usize = 16;

pub const KIND: usize = 8;

pub const BASE: usize = 9;

pub const WAITS: usize = 10;

pub const WAITING: usize = 11;

pub const PERMIT: usize = 12;

// Where the parts start, and how many bytes there are.
pub const TASKS_START: usize = HEAD_SIZE;

pub const CEILINGS_START: usize = TASKS_START + Roster::TASKS * TASK_SIZE;

pub const HELD_START: usize = CEILINGS_START + Roster::OBJECTS;

pub const QUEUES_START: usize = HELD_START + HELD_CELLS;

pub const STATE_SIZE: usize = QUEUES_START + QUEUE_CELLS;
