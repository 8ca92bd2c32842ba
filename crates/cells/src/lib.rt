// Internal: pub only for our own crates. A state's bytes, in the layout of specs/: whether they can be a state's, and from them into
// the engine's memory and back.
#![tactic(auto)]

mod front;
mod head;
mod rows;
pub mod sizes;
mod states;

pub use front::put_front;
pub use head::{Head, runner_from};
pub use rows::{task_of, task_row};
pub use states::{load, loadable, readable, store};
