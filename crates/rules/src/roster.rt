// The limits of a roster, all of its own kind: every size of a state, a board and a buffer is reckoned from them, and 11 and 13 follow
// them. Their definitions are in specs/Limits.
ghost use Rattle.std.specs.Prelude.{◌≡◌};
ghost use Rattle.rules.specs.Limits.{counts_good, size_good};

#[derive(Clone, Copy)]
pub struct Roster;

impl Roster {
    // The most tasks, and the most protected objects.
    pub const TASKS: usize = 64;

    pub const OBJECTS: usize = 32;

    // The fewest bytes, and the most.
    pub const SMALLEST: usize = 14;

    pub const LARGEST: usize = 60000;

    // Whether there may be so many tasks and objects, in a roster, a fresh start and a state: 13 and 10 follow it.
    pub fn counts_good(tasks: usize, objects: usize) -> bool
        ensures { result ≡ counts_good tasks objects }
    {
        (1..=Roster::TASKS).contains(&tasks) && objects <= Roster::OBJECTS
    }

    // Whether a roster may have so many bytes: 11 follows it.
    pub fn size_good(size: usize) -> bool
        ensures { result ≡ size_good size }
    {
        (Roster::SMALLEST..=Roster::LARGEST).contains(&size)
    }
}
