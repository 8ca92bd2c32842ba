// From a state to the engine's memory: what its counts and lengths reach. And whether they can be followed.
ghost use Rattle.std.specs.Prelude.{◌≡◌, ◌<◌, true, get_or};
ghost use Rattle.rules.specs.Limits.{task_limit, object_limit};
ghost use Rattle.rules.specs.Priorities.{priority};
ghost use Rattle.memory.specs.Memory.{blank_task};
ghost use Rattle.dispatch.specs.State.{view};
ghost use Rattle.dispatch.specs.Sound.{sizes_fit};

use crate::State;
use memory::Memory;
use rules::{Priority, Task};

// The whole state.
pub fn load(state: &State) -> Memory
    requires { sizes_fit state.now ≡ true }
    ensures { result ≡ view state.entry.now }
{
    let mut memory = Memory::new();
    loading::load(
        &mut memory,
        state.now,
        state.running,
        state.task_count,
        |t| -> Task
            requires { t < task_limit }
            ensures { result ≡ get_or state.entry.now.tasks t blank_task }
        { state.tasks[t] },
        &state.held,
        state.object_count,
        |o| -> Priority
            requires { o < object_limit }
            ensures { result ≡ get_or state.entry.now.ceilings o (priority 0) }
        { state.ceilings[o] },
        &state.queues,
    );
    memory
}

impl State {
    pub fn fits(self) -> bool
        ensures { result ≡ sizes_fit self }
    {
        loading::sizes_fit(self.task_count, self.object_count, &self.held, &self.queues)
    }
}
