// How many bytes a state has; specs/Sizes.antt of crate cells has the same.
pub const STATE_SIZE: usize = cells::sizes::STATE_SIZE;
