// The sizes and kinds of a run's events and of what it writes; specs/ has the same.
pub const EVENT_SIZE: usize = 8;

pub const LARGEST_EVENTS: usize = 32768;

// Bytes of a record, read as events in one place: an enum of them, unlike PlaceKind, would be no field and no result anywhere.
pub const CLOCK: u8 = 1;

pub const RELEASE: u8 = 2;

pub const STEP: u8 = 3;

pub const SET: u8 = 4;

pub const REPLY_SIZE: usize = 3;

// A byte of a reply, which the format of a run lays down; in the code nobody is None.
pub const NOBODY: u8 = 255;
