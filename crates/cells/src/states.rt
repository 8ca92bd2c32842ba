// A state in lent bytes: whether the bytes can be a state's, and from them into the engine's memory and back, with no State between.
ghost use Rattle.std.specs.Prelude.{◌≡◌, true, ◌&&◌, ◌+◌, ◌*◌, ◌≤◌, ◌<◌, length};
ghost use Rattle.rules.specs.Limits.{task_limit, object_limit, last_priority};
ghost use Rattle.rules.specs.Model.{ceiling_of};
ghost use Rattle.dispatch.specs.State.{view, encode};
ghost use Rattle.dispatch.specs.Sound.{sizes_fit};
ghost use Rattle.words.specs.Words.{byte_at, tabulate};
ghost use Rattle.cells.specs.Sizes.{tasks_start, task_size, ceilings_start, state_size};
ghost use Rattle.cells.specs.Decode.{task_from, state_of_bytes};
ghost use Rattle.cells.specs.InRange.{rows_in_range, readable};
ghost use Rattle.cells.specs.Encode.{head_in, with_state};

use crate::front::put_front;
use crate::head::Head;
use crate::rows::{row_in_range, task_of};
use crate::sizes::{
    CEILINGS_START, HELD_START, OBJECT_COUNT_AT, QUEUES_START, STATE_SIZE, TASK_COUNT_AT,
    TASK_SIZE, TASKS_START,
};
use memory::Memory;
use memory::objects::ceiling_of;
use rules::{Priority, Roster, Task};
use std::array;
use words::bytes_in;

// The rows of the tasks that the count lists have no number that a state cannot hold.
// `state_size ≤ length bytes` is a clause and no array, here and in `store`: a caller's buffer may be longer (put_front).
fn rows_in_range(bytes: &[u8]) -> bool
    requires { state_size ≤ length bytes.now }
    ensures { result ≡ rows_in_range bytes.now }
{
    let n = bytes[TASK_COUNT_AT] as usize;
    if Roster::TASKS < n {
        return false;
    }
    for t in 0..n {
        if !row_in_range(&bytes_in(bytes, TASKS_START + TASK_SIZE * t)) {
            return false;
        }
    }
    true
}

// Whether bytes can be a state's: enough of them, and no number that a state cannot hold.
pub fn readable(bytes: &[u8]) -> bool
    ensures { result ≡ readable bytes.now }
{
    STATE_SIZE <= bytes.len() && rows_in_range(bytes)
}

// Whether the bytes can be loaded: they are readable, and the counts and lengths in them are in range.
pub fn loadable(bytes: &[u8]) -> bool
    ensures { result ≡ (readable bytes.now && sizes_fit (state_of_bytes bytes.now)) }
{
    readable(bytes)
        && loading::sizes_fit(
            bytes[TASK_COUNT_AT],
            bytes[OBJECT_COUNT_AT],
            &bytes[HELD_START..QUEUES_START],
            &bytes[QUEUES_START..STATE_SIZE],
        )
}

// The memory comes to be that of the whole state, whatever it was.
pub fn load(bytes: &[u8], memory: &mut Memory)
    requires loadable { (readable bytes.now && sizes_fit (state_of_bytes bytes.now)) ≡ true }
    ensures { memory.new ≡ view (state_of_bytes bytes.now) }
{
    let head = Head::read(&bytes_in(bytes, 0));
    loading::load(
        memory,
        head.now,
        head.running,
        head.task_count,
        |t| task_of(&bytes_in(bytes, TASKS_START + TASK_SIZE * t)),
        &bytes[HELD_START..QUEUES_START],
        head.object_count,
        |o| Priority(bytes[CEILINGS_START + o]),
        &bytes[QUEUES_START..STATE_SIZE],
    );
}

// No From: the three bounds in its contract are what `store` needs, and a From has no clauses of its own.
#[tactic(auto, unfolding(dispatch::specs::State::encode))]
fn head(memory: &Memory) -> Head
    ensures value { result ≡ head_in (encode memory.entry.now) }
    ensures tasks { length memory.entry.now.tasks ≤ task_limit }
    ensures objects { length memory.entry.now.ceilings ≤ object_limit }
    ensures levels { length memory.entry.now.ready ≡ last_priority }
{
    Head {
        now: memory.now(),
        running: memory.running(),
        task_count: memory.task_count(),
        object_count: memory.object_count(),
        marks: memory.marks(),
    }
}

// Beside `ceilings` of dispatch's store, which gives Priorities: a line each, and mapping the one is the same line again.
fn levels(memory: &Memory) -> [u8; Roster::OBJECTS]
    ensures { result ≡ tabulate object_limit (ceiling_of memory.entry.now.ceilings) }
{
    array::from_fn(|o| ceiling_of(memory.ceilings(), o as u8).0)
}

// The memory back into the bytes, as the state for the Model that it means.
pub fn store(bytes: &mut [u8], memory: &Memory)
    requires { state_size ≤ length bytes.old }
    ensures { bytes.new ≡ with_state (encode memory.entry.now) bytes.old }
{
    put_front(
        bytes,
        head(memory),
        |t| memory.task(t as u8),
        &levels(memory),
    );
    loading::store_held(memory, &mut bytes[HELD_START..QUEUES_START]);
    loading::store_queues(memory, &mut bytes[QUEUES_START..STATE_SIZE]);
}
