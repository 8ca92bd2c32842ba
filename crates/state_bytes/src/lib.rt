// Internal: pub only for our own crates. A state by value, read out of lent bytes and written into them.
#![tactic(auto)]

ghost use Rattle.std.specs.Prelude.{◌≡◌, ◌+◌, map};
ghost use Rattle.rules.specs.Limits.{object_limit};
ghost use Rattle.rules.specs.Priorities.{level, priority};
ghost use Rattle.words.specs.Words.{byte_at, tabulate};
ghost use Rattle.cells.specs.Sizes.{ceilings_start};
ghost use Rattle.cells.specs.Decode.{tasks_from, state_of_bytes};
ghost use Rattle.cells.specs.Encode.{with_state};

use cells::sizes::{CEILINGS_START, HELD_START, QUEUES_START, STATE_SIZE, TASK_SIZE, TASKS_START};
use cells::{Head, put_front, task_of};
use dispatch::State;
use rules::{Priority, Roster, Task};
use std::array;
use words::{byte_at, bytes_at, put};

fn tasks_from(bytes: &[u8]) -> [Task; Roster::TASKS]
    ensures { result ≡ tasks_from bytes.now }
{
    array::from_fn(|t| task_of(&bytes_at(bytes, TASKS_START + TASK_SIZE * t)))
}

fn ceilings_from(bytes: &[u8]) -> [Priority; Roster::OBJECTS]
    ensures { result ≡ tabulate object_limit (λ o. priority (byte_at bytes.now (ceilings_start + o))) }
{
    array::from_fn(|o| Priority(byte_at(bytes, CEILINGS_START + o)))
}

// The state that the first STATE_SIZE bytes stand for; what lies past the last byte reads as 0.
pub fn read(bytes: &[u8]) -> State
    ensures { result ≡ state_of_bytes bytes.now }
{
    let head = Head::read(&bytes_at(bytes, 0));
    State {
        now: head.now,
        running: head.running,
        task_count: head.task_count,
        object_count: head.object_count,
        marks: head.marks,
        tasks: tasks_from(bytes),
        held: bytes_at(bytes, HELD_START),
        ceilings: ceilings_from(bytes),
        queues: bytes_at(bytes, QUEUES_START),
    }
}

fn levels(ceilings: &[Priority; Roster::OBJECTS]) -> [u8; Roster::OBJECTS]
    ensures { result ≡ map level ceilings.now }
{
    array::from_fn(|o| ceilings[o].0)
}

// The state into the first STATE_SIZE bytes, the others staying as they are; nothing is written if there are fewer.
pub fn write(state: State, bytes: &mut [u8])
    ensures { bytes.new ≡ with_state state bytes.old }
{
    if bytes.len() < STATE_SIZE {
        return;
    }
    // By hand: a Head is made of a State here alone, and no From is plainer than its fields.
    let head = Head {
        now: state.now,
        running: state.running,
        task_count: state.task_count,
        object_count: state.object_count,
        marks: state.marks,
    };
    put_front(bytes, head, |t| state.tasks[t], &levels(&state.ceilings));
    put(bytes, HELD_START, &state.held);
    put(bytes, QUEUES_START, &state.queues);
}
