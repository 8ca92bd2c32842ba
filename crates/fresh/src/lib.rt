// Internal: pub only for our own crates. A fresh start: the tasks join their queues in number order, and one dispatch follows.
#![tactic(auto)]

ghost use Rattle.std.specs.Prelude.{◌≡◌, [], length};
ghost use Rattle.rules.specs.Fresh.{unstarted, join_from, fresh_model, Startable};
ghost use Rattle.fresh.specs.Joins.{JoinAll};

use memory::{Memory, Row};
use rules::{Place, Priority, Task};

// A blank memory gets tasks of these bases that have not joined a queue yet, and objects of these ceilings: in place, since a memory
// that is handed back is copied.
// Bases and ceilings apart and `Startable` a clause: so C and State::fresh lend them; `Setup` is a record of specs/.
fn enroll(memory: &mut Memory, bases: &[u8], ceilings: &[u8])
    requires blank { memory.old ≡ unstarted (record { bases = []; ceilings = [] }) }
    requires startable { Startable (record { bases = bases.now; ceilings = ceilings.now }) }
    ensures { memory.new ≡ unstarted (record { bases = bases.now; ceilings = ceilings.now }) }
{
    for &ceiling in ceilings {
        memory.add_object(Priority(ceiling));
    }
    for &base in bases {
        let task = Task {
            place: Place::Suspended,
            base: Priority(base),
            waiting: None,
            permit: false,
        };
        memory.add_task(task, Row::new());
    }
}

// All tasks become ready, in number order.
fn join_all(memory: &mut Memory)
    requires { JoinAll memory.old }
    ensures { memory.new ≡ join_from 0 (length memory.old.tasks) memory.old }
{
    for t in 0..memory.task_count() {
        moves::become_ready(memory, t);
    }
}

// The memory comes to be a fresh start's, whatever it was.
pub fn fresh(memory: &mut Memory, bases: &[u8], ceilings: &[u8])
    requires startable { Startable (record { bases = bases.now; ceilings = ceilings.now }) }
    ensures { memory.new ≡ fresh_model (record { bases = bases.now; ceilings = ceilings.now }) }
{
    memory.clear();
    enroll(memory, bases, ceilings);
    join_all(memory);
    moves::dispatch(memory);
}
