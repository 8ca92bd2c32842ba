// A state as bytes, for callers in other languages: read out of lent bytes and written into them, in the layout that specs/ of crate
// cells has, and moved there by a fresh start and by events; and a board as bytes.
#![tactic(auto)]

mod byte_events;
mod sizes;

pub use board_bytes::{fill, next};
pub use byte_events::{apply, fresh, running, sound};
pub use sizes::STATE_SIZE;
pub use state_bytes::{read, write};
