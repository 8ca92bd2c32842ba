// From the engine's memory back to a state.
ghost use Rattle.std.specs.Prelude.{◌≡◌, ◌≤◌, length, map};
ghost use Rattle.rules.specs.Limits.{task_limit, object_limit};
ghost use Rattle.rules.specs.Priorities.{priority};
ghost use Rattle.memory.specs.Memory.{task_for, blank_task};
ghost use Rattle.loading.specs.Loading.{padded};
ghost use Rattle.dispatch.specs.State.{encode};

use crate::State;
use memory::Memory;
use memory::objects::ceiling_of;
use memory::sizes::{HELD_CELLS, QUEUE_CELLS};
use rules::{Priority, Roster, Task};
use std::array;

fn tasks(memory: &Memory) -> [Task; Roster::TASKS]
    requires { length memory.now.tasks ≤ task_limit }
    ensures { result ≡ padded task_limit (map task_for memory.entry.now.tasks) blank_task }
{
    array::from_fn(|t| memory.task(t as u8))
}

fn ceilings(memory: &Memory) -> [Priority; Roster::OBJECTS]
    requires { length memory.now.ceilings ≤ object_limit }
    ensures { result ≡ padded object_limit (map priority memory.entry.now.ceilings) (priority 0) }
{
    array::from_fn(|o| ceiling_of(memory.ceilings(), o as u8))
}

// The state for the Model that the memory means.
// No From, as `load` is none, which asks that the sizes fit: the two stand side by side.
pub fn store(memory: &Memory) -> State
    ensures { result ≡ encode memory.entry.now }
{
    let task_count = memory.task_count();
    let object_count = memory.object_count();
    let marks = memory.marks();
    let mut held = [0; HELD_CELLS];
    loading::store_held(memory, &mut held);
    let mut queues = [0; QUEUE_CELLS];
    loading::store_queues(memory, &mut queues);
    State {
        now: memory.now(),
        running: memory.running(),
        task_count,
        object_count,
        marks,
        tasks: tasks(memory),
        held,
        ceilings: ceilings(memory),
        queues,
    }
}
