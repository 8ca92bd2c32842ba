// What the program prints of a run: its lines, in a lent buffer.
#![tactic(auto)]

mod text;

pub use text::lines;
