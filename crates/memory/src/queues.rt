// The ready queues, each from its head on, and the word of marks, which follows every change of them.
ghost use Rattle.std.specs.Prelude.{◌≡◌, [], ◌∷◌, ◌++◌, suc, ◌<◌, ◌≤◌, length, drop, replicate};
ghost use Rattle.rules.specs.Limits.{task_limit, last_priority};
ghost use Rattle.rules.specs.Lists.{without};
ghost use Rattle.rules.specs.Model.{queue, with_queue};
ghost use Rattle.rules.specs.Moves.{head_of, highest};
ghost use Rattle.marks.specs.Marks.{marks_of};
ghost use Rattle.memory.specs.Rows.{row_for};
ghost use Rattle.memory.specs.Memory.{HasQueue};

use crate::sizes::PRIORITIES;
use crate::{Memory, Row};
use rules::{Priority, Roster};

// Every queue emptied.
pub fn empty(queues: &mut [Row<{ Roster::TASKS }>; PRIORITIES])
    ensures { queues.new ≡ replicate last_priority [] }
{
    for row in queues.iter_mut() {
        row.clear();
    }
}

impl Memory {
    // The ready queue for p.
    // `HasQueue` is a clause and no type, here and below: a Priority's field is public, and an event refuses one out of range.
    pub fn queue(&self, p: Priority) -> &[u8]
        requires { HasQueue p.0 }
        ensures value { result.now ≡ queue self.entry.now p.0 }
        ensures fits { length result.now ≤ task_limit }
    {
        self.queues[p.0 as usize - 1].as_slice()
    }

    // Of an empty queue 0.
    // 0 and no Option: the rules' `head_of` says 0.
    pub fn head_of(&self, p: Priority) -> u8
        requires { HasQueue p.0 }
        ensures { result ≡ head_of self.entry.now p.0 }
    {
        self.queue(p).first().copied().unwrap_or(0)
    }

    // The word of marks, with a bit for each queue.
    pub fn marks(&self) -> u32
        ensures value { result ≡ marks_of self.entry.now.ready }
        ensures levels { length self.entry.now.ready ≡ last_priority }
    {
        self.marks as u32
    }

    // The highest priority whose queue holds a task, or 0: read off the marks.
    // 0 and no Option: the rules' `highest` says 0.
    pub fn highest(&self) -> Priority
        ensures { result.0 ≡ highest self.entry.now }
    {
        marks::highest(self.marks as u32)
    }

    // Four changes, not one that is told its change by a closure: its clause could say no more than the closure's.
    pub fn push_tail(&mut self, p: Priority, t: u8)
        requires level { HasQueue p.0 }
        requires room { length (queue self.old p.0) < task_limit }
        ensures { self.new ≡ with_queue self.old p.0 (queue self.old p.0 ++ t ∷ []) }
    {
        let row = &mut self.queues[p.0 as usize - 1];
        row.push(t);
        self.marks = marks::put(self.marks, p, row.len());
    }

    pub fn push_head(&mut self, p: Priority, t: u8)
        requires level { HasQueue p.0 }
        requires room { length (queue self.old p.0) < task_limit }
        ensures { self.new ≡ with_queue self.old p.0 (t ∷ queue self.old p.0) }
    {
        let row = &mut self.queues[p.0 as usize - 1];
        row.push_front(t);
        self.marks = marks::put(self.marks, p, row.len());
    }

    // The head goes, where there is one.
    pub fn pop(&mut self, p: Priority)
        requires { HasQueue p.0 }
        ensures { self.new ≡ with_queue self.old p.0 (drop 1 (queue self.old p.0)) }
    {
        let row = &mut self.queues[p.0 as usize - 1];
        row.pop_front();
        self.marks = marks::put(self.marks, p, row.len());
    }

    // The task t goes, wherever it stands.
    pub fn remove(&mut self, p: Priority, t: u8)
        requires { HasQueue p.0 }
        ensures { self.new ≡ with_queue self.old p.0 (without t (queue self.old p.0)) }
    {
        let row = &mut self.queues[p.0 as usize - 1];
        row.remove(t);
        self.marks = marks::put(self.marks, p, row.len());
    }

    // The queue for p as it was written down, over an empty one.
    pub fn set_queue(&mut self, p: Priority, row: Row<{ Roster::TASKS }>)
        requires { HasQueue p.0 }
        ensures { self.new ≡ with_queue self.old p.0 row }
    {
        self.marks = marks::put(self.marks, p, row.len());
        self.queues[p.0 as usize - 1] = row;
    }

    // The row of the queue for p, as a state has it.
    pub fn write_queue(&self, p: Priority, row: &mut [u8])
        requires level { HasQueue p.0 }
        requires width { length row.old ≡ suc task_limit }
        ensures { row.new ≡ row_for (suc task_limit) (queue self.entry.now p.0) }
    {
        self.queues[p.0 as usize - 1].write(row);
    }
}
