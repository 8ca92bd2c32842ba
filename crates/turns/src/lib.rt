// Internal: pub only for our own crates. A run of a roster between two events: the engine's memory, the scripts and where each task is in
// its own; and what an event does to it.
#![tactic(auto)]

mod machine;
mod scripts;
mod steps;

pub use machine::Machine;
pub use scripts::Scripts;
