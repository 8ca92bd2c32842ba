// What a caller wants to see of a state, whatever state it is.
ghost use Rattle.std.specs.Prelude.{◌≡◌, map, ◌<◌, ltb, length};
ghost use Rattle.rules.specs.Priorities.{level};
ghost use Rattle.memory.specs.Rows.{in_row};
ghost use Rattle.dispatch.specs.State.{view};
ghost use Rattle.dispatch.specs.Readers.{entry_of, queue_of, task_record_of, held_of, active_priority_of};

use crate::State;
use memory::objects::highest_of;
use memory::sizes::{HELD_WIDTH, QUEUE_WIDTH};
use rules::{Priority, Roster, Task};

// The list in a row; one that says more than there is room for is cut.
fn list(row: &[u8]) -> &[u8]
    requires { 0 < length row.now }
    ensures { result.now ≡ in_row row.now }
{
    let cells = &row[1..];
    &cells[..cells.len().min(row[0] as usize)]
}

// Its entry at i.
fn entry(list: &[u8], i: u64) -> Option<u8>
    ensures { result ≡ entry_of list.now i }
{
    list.get(i as usize).copied()
}

impl State {
    // Who runs.
    #[tactic(auto, unfolding(crate::specs::State::view))]
    pub fn running(&self) -> Option<u8>
        ensures { result ≡ (view self.entry.now).running }
    {
        self.running
    }

    // The ready queue for p; an empty one for no priority.
    fn queue(&self, p: Priority) -> &[u8]
        ensures { result.now ≡ queue_of self.entry.now p }
    {
        if !p.in_range() {
            return &[];
        }
        let b = (p.0 as usize - 1) * QUEUE_WIDTH;
        list(&self.queues[b..b + QUEUE_WIDTH])
    }

    // Its length, and its entry at i, the head being at 0.
    pub fn queue_length(&self, p: Priority) -> usize
        ensures { result ≡ length (queue_of self.entry.now p) }
    {
        self.queue(p).len()
    }

    pub fn queue_entry(&self, p: Priority, i: u64) -> Option<u8>
        ensures { result ≡ entry_of (queue_of self.entry.now p) i }
    {
        entry(self.queue(p), i)
    }

    fn has_task(&self, t: u64) -> bool
        ensures { result ≡ ltb t (length (view self.entry.now).tasks) }
    {
        t < self.task_count as u64 && t < Roster::TASKS as u64
    }

    // The record of the task t, a blank one past the last.
    // A blank one and no Option: callers have this answer (`task_record_of`).
    pub fn task(&self, t: u64) -> Task
        ensures { result ≡ task_record_of self.entry.now t }
    {
        if self.has_task(t) {
            self.tasks[t as usize]
        } else {
            Task::BLANK
        }
    }

    // What t holds, the outermost object first; nothing past the last task.
    fn held(&self, t: u64) -> &[u8]
        ensures { result.now ≡ held_of self.entry.now t }
    {
        if !self.has_task(t) {
            return &[];
        }
        let b = t as usize * HELD_WIDTH;
        list(&self.held[b..b + HELD_WIDTH])
    }

    // How many objects it holds, and its entry at i.
    pub fn held_length(&self, t: u64) -> usize
        ensures { result ≡ length (held_of self.entry.now t) }
    {
        self.held(t).len()
    }

    pub fn held_entry(&self, t: u64, i: u64) -> Option<u8>
        ensures { result ≡ entry_of (held_of self.entry.now t) i }
    {
        entry(self.held(t), i)
    }

    // The ceilings of the objects that there are.
    fn ceilings(&self) -> &[Priority]
        ensures { map level result.now ≡ (view self.entry.now).ceilings }
    {
        &self.ceilings[..Roster::OBJECTS.min(self.object_count as usize)]
    }

    // The active priority of t.
    pub fn active(&self, t: u64) -> Priority
        ensures { result ≡ active_priority_of self.entry.now t }
    {
        highest_of(self.ceilings(), self.task(t).base, self.held(t))
    }
}
