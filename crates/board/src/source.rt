// What a board is filled from: how many tasks a state has, and the row of a task, read off the state.
ghost use Rattle.std.specs.Prelude.{◌≡◌, true, cond, ◌<◌, eqb, length, get_or};
ghost use Rattle.dispatch.specs.State.{view};
ghost use Rattle.dispatch.specs.Sound.{sound_of};
ghost use Rattle.dispatch.specs.Readers.{queue_of};
ghost use Rattle.board.specs.Rows.{is_ready_kind};
ghost use Rattle.memory.specs.Rows.{place_in};
ghost use Rattle.board.specs.Fill.{row_of};

use crate::scan::is_ready;
use crate::{ROW_LIMIT, Row};
use dispatch::State;
use rules::{PlaceKind, Priority};

// How many tasks a state has. By value: a lent state was tried, and the proof of the clause did not close.
pub fn tasks_in(state: State) -> usize
    ensures { result ≡ length (view state).tasks }
{
    ROW_LIMIT.min(state.task_count as usize)
}

// Whether t stands at i in the queue for p.
fn stands_at(state: &State, p: Priority, i: usize, t: usize) -> bool
    requires { i < length (queue_of state.now p) }
    ensures { result ≡ eqb (get_or (queue_of state.entry.now p) i 0) t }
{
    state
        .queue_entry(p, i as u64)
        .is_some_and(|u| u as usize == t)
}

// How many stand before t in the queue for p: by numbers, since `State::queue` is not public.
fn stand_before(state: &State, p: Priority, t: usize) -> usize
    ensures { result ≡ place_in t (queue_of state.entry.now p) }
{
    let n = state.queue_length(p);
    for i in 0..n {
        if stands_at(state, p, i, t) {
            return i;
        }
    }
    n
}

// The position of t in the queue for p; 0 if it is not ready.
fn position(state: &State, kind: PlaceKind, p: Priority, t: usize) -> u8
    ensures { result ≡ cond (is_ready_kind kind) (place_in t (queue_of state.entry.now p)) 0 }
{
    if is_ready(kind) {
        stand_before(state, p, t) as u8
    } else {
        0
    }
}

// The row of task t.
pub fn row_of(state: &State, t: usize) -> Row
    requires sound { sound_of state.now ≡ true }
    requires there { t < length (view state.now).tasks }
    ensures { result ≡ row_of (view state.entry.now) t }
{
    let kind = state.task(t as u64).place.kind();
    let priority = state.active(t as u64);
    Row {
        kind,
        priority,
        position: position(state, kind, priority, t),
    }
}
