// Internal: pub only for our own crates. The memory of the engine: a struct that a contract sees as the Model that it means, how its
// parts are read and replaced; and what an event on it comes to.
#![tactic(auto)]

pub mod objects;
mod queues;
mod row;
pub mod rulings;
pub mod sizes;
mod tasks;

ghost use Rattle.std.specs.Prelude.{◌≡◌, [], ◌≤◌, length};
ghost use Rattle.rules.specs.Limits.{task_limit};
ghost use Rattle.rules.specs.Model.{with_now, with_running};
ghost use Rattle.rules.specs.Fresh.{unstarted};
ghost use Rattle.memory.specs.Memory.{Bounds, Notes};

pub use row::Row;
use rules::{Place, Priority, Roster, Task};
use sizes::{NO_DUE, PRIORITIES};
use std::array;
use std::marker::Model;

// A task's record and what it holds, the outermost object first.
#[derive(Drop)]
pub struct Slot {
    pub task: Task,
    pub held: Row<{ Roster::OBJECTS }>,
}

// Who runs, the records, the ceilings and the ready queues, and beside them, so that an event looks at no more than it has to: a word of
// marks for the queues, a reading before which no delayed task is due, and a word in which the bit of every delayed task is on.
// Counts beside arrays, since there is no heap; `Kept` says that they are within them.
#[derive(Drop)]
pub struct Memory {
    now: u64,
    running: Option<u8>,
    task_count: u8,
    object_count: u8,
    marks: u64,
    next: u64,
    delayed: u64,
    slots: [Slot; Roster::TASKS],
    ceilings: [Priority; Roster::OBJECTS],
    queues: [Row<{ Roster::TASKS }>; PRIORITIES],
}

impl Model for Memory {
    ghost use Rattle.rules.specs.Model.{Model};

    ghost Value = { Model };

    ghost use Rattle.memory.specs.View.{view_of, Kept};

    ghost view = { view_of };

    ghost invariant = { Kept };
}

impl Slot {
    // All zeros, so that a new memory is cleared where it stays and not copied there.
    fn blank() -> Self {
        Slot {
            task: Task {
                place: Place::Running,
                base: Priority(0),
                waiting: None,
                permit: false,
            },
            held: Row::new(),
        }
    }
}

impl Memory {
    // The clock at 0, no tasks, no objects, and nobody in a queue.
    pub fn new() -> Self
        ensures { result ≡ unstarted (record { bases = []; ceilings = [] }) }
    {
        Memory {
            now: 0,
            running: None,
            task_count: 0,
            object_count: 0,
            marks: 0,
            next: NO_DUE,
            delayed: 0,
            slots: array::from_fn(|_| Slot::blank()),
            ceilings: [Priority(0); Roster::OBJECTS],
            queues: array::from_fn(
                |_| -> Row<{ Roster::TASKS }>
                    ensures { result ≡ [] }
                { Row::new() },
            ),
        }
    }

    // Back to what a new one is, where it stays: one that is handed over is copied.
    pub fn clear(&mut self)
        ensures { self.new ≡ unstarted (record { bases = []; ceilings = [] }) }
    {
        queues::empty(&mut self.queues);
        self.now = 0;
        self.running = None;
        self.task_count = 0;
        self.object_count = 0;
        self.marks = 0;
        self.next = NO_DUE;
        self.delayed = 0;
    }

    pub fn now(&self) -> u64
        ensures { result ≡ self.entry.now.now }
    {
        self.now
    }

    pub fn set_now(&mut self, r: u64)
        ensures { self.new ≡ with_now self.old r }
    {
        self.now = r;
    }

    pub fn running(&self) -> Option<u8>
        ensures { result ≡ self.entry.now.running }
    {
        self.running
    }

    pub fn set_running(&mut self, running: Option<u8>)
        ensures { self.new ≡ with_running self.old running }
    {
        self.running = running;
    }

    // A reading before which no delayed task is due.
    pub fn bound(&self) -> u64
        ensures { Bounds result self.entry.now }
    {
        self.next
    }

    pub fn set_bound(&mut self, next: u64)
        requires { Bounds next self.old }
        ensures { self.new ≡ self.old }
    {
        self.next = next;
    }

    // A word in which the bit of every delayed task is on.
    pub fn delayed(&self) -> u64
        ensures notes { Notes result self.entry.now }
        ensures fits { length self.entry.now.tasks ≤ task_limit }
    {
        self.delayed
    }
}
