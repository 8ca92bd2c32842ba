// The roster file: its form, its check, and the readers of bases, ceilings, scripts and steps.
#![tactic(auto)]

mod checks;
mod forms;
mod held;
mod parts;
mod readers;
mod scripts;

pub use checks::check;
pub use forms::form;
pub use readers::{base, ceiling, step, step_count};
pub use scripts::{listed_task, script, script_answer};
