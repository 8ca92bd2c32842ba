// The tasks' records.
ghost use Rattle.std.specs.Prelude.{◌≡◌, ℕ, ◌∷◌, [], ◌++◌, ◌<◌, ◌≤◌, length};
ghost use Rattle.rules.specs.Limits.{task_limit};
ghost use Rattle.rules.specs.Model.{task_at, with_task, with_tasks, with_place, with_base, with_waiting, with_permit};
ghost use Rattle.rules.specs.declared.Place.TheVariants.{Delayed};
ghost use Rattle.memory.specs.Memory.{record_of, waiting_in, task_for};

use crate::{Memory, Row, Slot};
use rules::{Place, Priority, Roster, Task};

// That t is a task is a clause and no type: it is a fact of the number and the memory, and no value keeps both.
impl Memory {
    // `Kept` has the bound, but callers see the Model alone: an `ensures` tells them, and they tell it on (also in objects, queues).
    pub fn task_count(&self) -> u8
        ensures value { result ≡ length self.entry.now.tasks }
        ensures fits { length self.entry.now.tasks ≤ task_limit }
    {
        self.task_count
    }

    // One task more.
    pub fn add_task(&mut self, task: Task, held: Row<{ Roster::OBJECTS }>)
        requires { length self.old.tasks < task_limit }
        ensures { self.new ≡ with_tasks self.old (self.old.tasks ++ record_of task held ∷ []) }
    {
        let n = self.task_count as usize;
        self.slots[n] = Slot { task, held };
        self.task_count += 1;
        if let Place::Delayed(due) = task.place {
            self.delayed = marks::with_bit(self.delayed, n);
            self.next = due.min(self.next);
        }
    }

    // The whole record, a blank one past the last.
    // A blank one and no Option: `task_at` of the rules is blank there, and a stored state has blank rows behind its tasks.
    pub fn task(&self, t: u8) -> Task
        ensures { result ≡ task_for (task_at self.entry.now t) }
    {
        if t < self.task_count {
            self.slots[t as usize].task
        } else {
            Task::BLANK
        }
    }

    pub fn place(&self, t: u8) -> Place
        requires { t < length self.now.tasks }
        ensures { result ≡ (task_at self.entry.now t).place }
    {
        self.slots[t as usize].task.place
    }

    pub fn base(&self, t: u8) -> Priority
        requires { t < length self.now.tasks }
        ensures { result.0 ≡ (task_at self.entry.now t).base }
    {
        self.slots[t as usize].task.base
    }

    pub fn waiting(&self, t: u8) -> Option<Priority>
        requires { t < length self.now.tasks }
        ensures { waiting_in result ≡ (task_at self.entry.now t).waiting }
    {
        self.slots[t as usize].task.waiting
    }

    pub fn permit(&self, t: u8) -> bool
        requires { t < length self.now.tasks }
        ensures { result ≡ (task_at self.entry.now t).permit }
    {
        self.slots[t as usize].task.permit
    }

    pub fn set_place(&mut self, t: u8, place: Place)
        requires { t < length self.old.tasks }
        ensures { self.new ≡ with_task self.old t (with_place (task_at self.old t) place) }
    {
        self.slots[t as usize].task.place = place;
        if let Place::Delayed(due) = place {
            self.delayed = marks::with_bit(self.delayed, t as usize);
            self.next = self.next.min(due);
        }
    }

    // A setter for each field, as the rules have (`with_base` ..).
    pub fn set_base(&mut self, t: u8, base: Priority)
        requires { t < length self.old.tasks }
        ensures { self.new ≡ with_task self.old t (with_base (task_at self.old t) base.0) }
    {
        self.slots[t as usize].task.base = base;
    }

    pub fn set_waiting(&mut self, t: u8, waiting: Option<Priority>)
        requires { t < length self.old.tasks }
        ensures { self.new ≡ with_task self.old t (with_waiting (task_at self.old t) (waiting_in waiting)) }
    {
        self.slots[t as usize].task.waiting = waiting;
    }

    pub fn set_permit(&mut self, t: u8, permit: bool)
        requires { t < length self.old.tasks }
        ensures { self.new ≡ with_task self.old t (with_permit (task_at self.old t) permit) }
    {
        self.slots[t as usize].task.permit = permit;
    }

    // The bit of t, which is not delayed, goes off.
    pub fn forget(&mut self, t: u8)
        requires there { t < length self.old.tasks }
        requires awake { (d : ℕ) → (task_at self.old t).place ≡ Delayed d → ⊥ }
        ensures { self.new ≡ self.old }
    {
        self.delayed = marks::without_bit(self.delayed, t as usize);
    }
}
