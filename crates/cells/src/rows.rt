// The row of a task: its due time, place kind, base, whether a base waits, that base, and its permit.
ghost use Rattle.std.specs.Prelude.{◌≡◌};
ghost use Rattle.cells.specs.Decode.{place_from, waiting_from, task_from};
ghost use Rattle.cells.specs.Encode.{due_of, waits_byte, waiting_byte, task_bytes};
ghost use Rattle.cells.specs.InRange.{row_in_range};

use crate::sizes::{BASE, KIND, PERMIT, TASK_SIZE, WAITING, WAITS};
use rules::{Place, PlaceKind, Priority, Task};
use words::{number_in, put};

fn place_from(kind: u8, due: u64) -> Place
    ensures { result ≡ place_from kind due }
{
    PlaceKind::try_from(kind)
        .unwrap_or(PlaceKind::Running)
        .place(due)
}

fn waiting_from(waits: u8, p: u8) -> Option<Priority>
    ensures { result ≡ waiting_from waits p }
{
    (waits != 0).then_some(Priority(p))
}

// The record that a row stands for.
// No From, here and in task_row: neither Task nor an array of bytes is a type of this crate.
#[tactic(auto, unfolding(crate::specs::Decode::task_from))]
pub fn task_of(row: &[u8; TASK_SIZE]) -> Task
    ensures { result ≡ task_from row.now 0 }
{
    Task {
        place: place_from(row[KIND], number_in(row, 0)),
        base: Priority(row[BASE]),
        waiting: waiting_from(row[WAITS], row[WAITING]),
        permit: row[PERMIT] != 0,
    }
}

// Whether a row has no number that a record cannot hold.
pub fn row_in_range(row: &[u8; TASK_SIZE]) -> bool
    ensures { result ≡ row_in_range row.now 0 }
{
    PlaceKind::try_from(row[KIND]).is_ok() && row[WAITS] <= 1 && row[PERMIT] <= 1
}

// By cases: one place alone has a due time; the 0 of the others is the layout's (due_of in specs/).
fn due_of(place: Place) -> u64
    ensures { result ≡ due_of place }
{
    match place {
        Place::Delayed(due) => due,
        _ => 0,
    }
}

fn waits_byte(waiting: Option<Priority>) -> u8
    ensures { result ≡ waits_byte waiting }
{
    u8::from(waiting.is_some())
}

fn waiting_byte(waiting: Option<Priority>) -> u8
    ensures { result ≡ waiting_byte waiting }
{
    waiting.map_or(0, |p| p.0)
}

// The row for a record.
pub fn task_row(task: Task) -> [u8; TASK_SIZE]
    ensures { result ≡ task_bytes task }
{
    let mut row = [0; TASK_SIZE];
    put(&mut row, 0, &due_of(task.place).to_le_bytes());
    row[KIND] = u8::from(task.place.kind());
    row[BASE] = task.base.0;
    row[WAITS] = waits_byte(task.waiting);
    row[WAITING] = waiting_byte(task.waiting);
    row[PERMIT] = u8::from(task.permit);
    row
}
