// The writer of roster files: bases, ceilings and step lists into a lent buffer. Its meaning is in crate encoding.
#![tactic(auto)]

mod parts;
mod tables;
mod writes;

pub use parts::Parts;
