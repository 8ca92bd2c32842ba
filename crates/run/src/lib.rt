// A run of a roster under events.
#![tactic(auto)]

mod pass;

pub use pass::run;
