// What stands in a state's bytes in front of its rows of lists: the head, the tasks' rows and the ceilings.
ghost use Rattle.std.specs.Prelude.{◌≡◌, ◌++◌, ◌≤◌, ◌<◌, ℕ, List, length};
ghost use mathlib.Core.List.{flat_map};
ghost use Rattle.std.proofs.lemmas.List.Edits.{sets};
ghost use Rattle.rules.specs.Limits.{task_limit};
ghost use Rattle.rules.specs.declared.Task.{Task};
ghost use Rattle.cells.specs.Sizes.{state_size};
ghost use Rattle.cells.specs.Encode.{head_row, task_bytes};
ghost use Rattle.cells.specs.Front.{TasksGiven};

use crate::head::Head;
use crate::rows::task_row;
use crate::sizes::{CEILINGS_START, TASK_SIZE, TASKS_START};
use rules::{Roster, Task};
use words::put;

// Who writes says how a record is read: from an array in one place and from the engine's memory in another.
// The bytes are no array of STATE_SIZE: a caller's buffer may be longer, and its rest stays as it is (with_state).
pub fn put_front<T: Fn(usize) -> Task>(
    bytes: &mut [u8],
    head: Head,
    task: T,
    ceilings: &[u8; Roster::OBJECTS],
)
    requires room { state_size ≤ length bytes.old }
    requires callable { (t : ℕ) → t < task_limit → T.pre task t }
    ensures { (ks : List Task) → TasksGiven (T.post task) ks →
        bytes.new ≡ sets bytes.old 0 (head_row head ++ (flat_map task_bytes ks ++ ceilings.now)) }
{
    put(bytes, 0, &head.bytes());
    for t in 0..Roster::TASKS {
        put(bytes, TASKS_START + TASK_SIZE * t, &task_row(task(t)));
    }
    put(bytes, CEILINGS_START, ceilings);
}
