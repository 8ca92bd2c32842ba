// The objects: their ceilings, who holds them, and the active priority that this gives.
ghost use Rattle.std.specs.Prelude.{◌≡◌, ◌∷◌, [], ◌++◌, suc, ◌-◌, ◌<◌, ◌≤◌, length, map, take};
ghost use Rattle.rules.specs.Limits.{object_limit};
ghost use Rattle.rules.specs.Priorities.{level};
ghost use Rattle.rules.specs.Model.{task_at, with_task, with_held, with_ceilings, ceiling_of, highest_of, active};
ghost use Rattle.rules.specs.Events.{inside, holds, innermost};
ghost use Rattle.memory.specs.Rows.{row_for};
ghost use Rattle.memory.specs.Memory.{Rises};

use crate::Memory;
use rules::{Priority, Roster};

// The ceiling of an object; 0 for one that is not listed.
// 0 and no Option: the rules' `ceiling_of` says 0.
pub fn ceiling_of(ceilings: &[Priority], o: u8) -> Priority
    ensures { result.0 ≡ ceiling_of (map level ceilings.now) o }
{
    ceilings.get(o as usize).copied().unwrap_or(Priority(0))
}

// The highest of p and the ceilings of a list of objects.
pub fn highest_of(ceilings: &[Priority], p: Priority, held: &[u8]) -> Priority
    ensures { result.0 ≡ highest_of (map level ceilings.now) p.0 held.now }
{
    let mut a = p;
    for &o in held {
        a = a.max(ceiling_of(ceilings, o));
    }
    a
}

impl Memory {
    pub fn object_count(&self) -> u8
        ensures value { result ≡ length self.entry.now.ceilings }
        ensures fits { length self.entry.now.ceilings ≤ object_limit }
    {
        self.object_count
    }

    // The ceilings of all objects.
    pub fn ceilings(&self) -> &[Priority]
        ensures { map level result.now ≡ self.entry.now.ceilings }
    {
        &self.ceilings[..self.object_count as usize]
    }

    // 0 for an object that is not listed.
    pub fn ceiling(&self, o: u8) -> Priority
        ensures { result.0 ≡ ceiling_of self.entry.now.ceilings o }
    {
        ceiling_of(self.ceilings(), o)
    }

    // One object more.
    pub fn add_object(&mut self, ceiling: Priority)
        requires { length self.old.ceilings < object_limit }
        ensures { self.new ≡ with_ceilings self.old (self.old.ceilings ++ ceiling.0 ∷ []) }
    {
        self.ceilings[self.object_count as usize] = ceiling;
        self.object_count += 1;
    }

    // What t holds, the outermost first.
    pub fn held(&self, t: u8) -> &[u8]
        requires { t < length self.now.tasks }
        ensures { result.now ≡ (task_at self.entry.now t).held }
    {
        self.slots[t as usize].held.as_slice()
    }

    // Whether t is inside a protected action.
    pub fn inside(&self, t: u8) -> bool
        requires { t < length self.now.tasks }
        ensures { result ≡ inside (task_at self.entry.now t) }
    {
        !self.held(t).is_empty()
    }

    pub fn holds(&self, t: u8, o: u8) -> bool
        requires { t < length self.now.tasks }
        ensures { result ≡ holds (task_at self.entry.now t) o }
    {
        self.held(t).contains(&o)
    }

    // Whether t entered o last of all that it holds.
    pub fn innermost(&self, t: u8, o: u8) -> bool
        requires { t < length self.now.tasks }
        ensures { result ≡ innermost (task_at self.entry.now t) o }
    {
        self.held(t).last() == Some(&o)
    }

    // The row of what t holds, as a state has it; past the last task an empty one.
    pub fn write_held(&self, t: u8, row: &mut [u8])
        requires { length row.old ≡ suc object_limit }
        ensures { row.new ≡ row_for (suc object_limit) (task_at self.entry.now t).held }
    {
        if t < self.task_count {
            self.slots[t as usize].held.write(row);
        } else {
            row.fill(0);
        }
    }

    // t holds o too, as its innermost.
    pub fn hold(&mut self, t: u8, o: u8)
        requires there { t < length self.old.tasks }
        requires room { length (task_at self.old t).held < object_limit }
        ensures { self.new ≡ with_task self.old t (with_held (task_at self.old t) ((task_at self.old t).held ++ o ∷ [])) }
    {
        self.slots[t as usize].held.push(o);
    }

    // t gives up its innermost object.
    pub fn give_up(&mut self, t: u8)
        requires { t < length self.old.tasks }
        ensures { self.new ≡
            with_task self.old t (with_held (task_at self.old t) (take (length (task_at self.old t).held - 1) (task_at self.old t).held)) }
    {
        self.slots[t as usize].held.pop();
    }

    // The active priority of any number; 0 where there is no such task.
    // 0 and no Option: the rules' `active` says 0.
    pub fn active(&self, t: u8) -> Priority
        ensures { result.0 ≡ active self.entry.now t }
    {
        if t < self.task_count() {
            highest_of(self.ceilings(), self.base(t), self.held(t))
        } else {
            Priority(0)
        }
    }

    // The same, of a task whose held objects' ceilings do not fall: the innermost has the highest, so that no other is looked at.
    pub fn active_inside(&self, t: u8) -> Priority
        requires there { t < length self.now.tasks }
        requires rises { Rises self.now t }
        ensures { result.0 ≡ active self.entry.now t }
    {
        match self.held(t) {
            [] => self.base(t),
            [.., o] => ceiling_of(self.ceilings(), *o),
        }
    }
}
