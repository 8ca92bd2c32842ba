// The sizes that a state, the engine and the clock have; specs/ has the same.
use rules::Roster;

pub const PRIORITIES: usize = 32;

// The largest reading of the clock.
pub const LAST_READING: u64 = 281474976710655;

// The most ticks that a reading may be past now.
pub const LONGEST_ADVANCE: u64 = 86400000;

// The longest Delay.
pub const LAST_DELAY: u64 = 65535;

// The rows of a state's held lists and ready queues: a row's first cell is the length of its list.
// They are widths of rows, since callers in C and Ada have this layout of a state (docs/LAYOUT.md).
pub const QUEUE_WIDTH: usize = Roster::TASKS + 1;

pub const HELD_WIDTH: usize = Roster::OBJECTS + 1;

// The cells of all held lists and of all queues.
pub const HELD_CELLS: usize = Roster::TASKS * HELD_WIDTH;

pub const QUEUE_CELLS: usize = PRIORITIES * QUEUE_WIDTH;

// The bound of due times where no task is delayed: past every reading.
// A number and no Option: `later_due` says it, and a Clock compares it with its reading as it is.
pub const NO_DUE: u64 = u64::MAX;
