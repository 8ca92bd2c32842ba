// Internal: pub only for our own crates. The nine events, as in specs/Events.antt of crate rules, on the engine's memory. Each may assume
// that the memory means a sound Model, and leaves a sound one.
// `sound` is a clause and no type: between the moves of an event the memory is not sound. Each `Did` is of another event.
#![tactic(auto)]

ghost use Rattle.std.specs.Prelude.{◌≡◌, true};
ghost use Rattle.rules.specs.Events.{enter, leave, delay, suspend, release, bad_reading, clock, set_base, work, finish};
ghost use Rattle.rules.specs.Sound.{sound};
ghost use Rattle.memory.specs.Memory.{Did};

mod conclusion;

use crate::conclusion::conclude;
use memory::Memory;
use memory::rulings::Ruling;
use memory::sizes::{LAST_READING, LONGEST_ADVANCE};
use moves::{effects, waking};
use rules::{Place, Priority};

// No dispatch follows: who enters stays the highest.
#[tactic(auto, unfolding(rules::specs::Events::enter, rules::specs::Moved::refuse_if_nobody))]
pub fn enter(memory: &mut Memory, o: u64) -> Ruling
    requires { sound memory.old ≡ true }
    ensures did { Did memory.new result (enter memory.old o) }
    ensures kept { sound memory.new ≡ true }
{
    if o >= u64::from(memory.object_count()) {
        return Ruling::NoSuchObject;
    }
    let Some(t) = memory.running() else {
        return Ruling::NobodyRuns;
    };
    let object = o as u8;
    if memory.holds(t, object) {
        return Ruling::InsideAction;
    }
    if memory.ceiling(object) < memory.active_inside(t) {
        return Ruling::AboveCeiling;
    }
    memory.hold(t, object);
    Ruling::Unchanged
}

#[tactic(auto, unfolding(rules::specs::Events::leave, rules::specs::Moved::refuse_if_nobody))]
pub fn leave(memory: &mut Memory, o: u64) -> Ruling
    requires { sound memory.old ≡ true }
    ensures did { Did memory.new result (leave memory.old o) }
    ensures kept { sound memory.new ≡ true }
{
    if o >= u64::from(memory.object_count()) {
        return Ruling::NoSuchObject;
    }
    let Some(t) = memory.running() else {
        return Ruling::NobodyRuns;
    };
    if !memory.innermost(t, o as u8) {
        return Ruling::NotInnermost;
    }
    memory.give_up(t);
    effects::settle(memory, t);
    conclude(memory, Some(t))
}

#[tactic(auto, unfolding(rules::specs::Events::delay, rules::specs::Moved::refuse_if_nobody))]
pub fn delay(memory: &mut Memory, d: u16) -> Ruling
    requires { sound memory.old ≡ true }
    ensures did { Did memory.new result (delay memory.old d) }
    ensures kept { sound memory.new ≡ true }
{
    let Some(t) = memory.running() else {
        return Ruling::NobodyRuns;
    };
    if memory.inside(t) {
        return Ruling::InsideAction;
    }
    memory.set_running(None);
    effects::put_off(memory, t, d);
    conclude(memory, Some(t))
}

// No dispatch follows where the task had a permit: it runs on.
#[tactic(auto, unfolding(rules::specs::Events::suspend, rules::specs::Moved::refuse_if_nobody))]
pub fn suspend(memory: &mut Memory) -> Ruling
    requires { sound memory.old ≡ true }
    ensures did { Did memory.new result (suspend memory.old) }
    ensures kept { sound memory.new ≡ true }
{
    let Some(t) = memory.running() else {
        return Ruling::NobodyRuns;
    };
    if memory.inside(t) {
        return Ruling::InsideAction;
    }
    if effects::rest(memory, t) {
        return Ruling::Unchanged;
    }
    conclude(memory, Some(t))
}

// No dispatch follows where t was not suspended: a permit moves nobody.
#[tactic(auto, unfolding(rules::specs::Events::release))]
pub fn release(memory: &mut Memory, t: u64) -> Ruling
    requires { sound memory.old ≡ true }
    ensures did { Did memory.new result (release memory.old t) }
    ensures kept { sound memory.new ≡ true }
{
    if t >= u64::from(memory.task_count()) {
        return Ruling::NoSuchTask;
    }
    let before = memory.running();
    if !effects::release_from(memory, t as u8) {
        return Ruling::Unchanged;
    }
    conclude(memory, before)
}

// Whether the reading r is refused at this now. A leap is told by the difference, since a sum could overflow.
#[tactic(auto, unfolding(rules::specs::Events::bad_reading))]
fn bad_reading(now: u64, r: u64) -> bool
    ensures { result ≡ bad_reading now r }
{
    r < now || r - now > LONGEST_ADVANCE || r > LAST_READING
}

// No task is looked at, and no dispatch follows, where the reading is before the bound: it moves nobody then.
#[tactic(auto, unfolding(rules::specs::Events::clock))]
pub fn clock(memory: &mut Memory, r: u64) -> Ruling
    requires { sound memory.old ≡ true }
    ensures did { Did memory.new result (clock memory.old r) }
    ensures kept { sound memory.new ≡ true }
{
    if bad_reading(memory.now(), r) {
        return Ruling::BadReading;
    }
    memory.set_now(r);
    if r < memory.bound() {
        return Ruling::Unchanged;
    }
    let before = memory.running();
    waking::wake_up(memory, r);
    conclude(memory, before)
}

#[tactic(auto, unfolding(rules::specs::Events::set_base, rules::specs::Events::is_ended))]
pub fn set(memory: &mut Memory, t: u64, p: Priority) -> Ruling
    requires { sound memory.old ≡ true }
    ensures did { Did memory.new result (set_base memory.old t p.0) }
    ensures kept { sound memory.new ≡ true }
{
    if t >= u64::from(memory.task_count()) {
        return Ruling::NoSuchTask;
    }
    if !p.in_range() {
        return Ruling::BadPriority;
    }
    let task = t as u8;
    if memory.place(task) == Place::Ended {
        return Ruling::EndedTask;
    }
    let before = memory.running();
    effects::rebase(memory, task, p);
    conclude(memory, before)
}

// No dispatch follows: in a sound state it moves nobody.
#[tactic(auto, unfolding(rules::specs::Events::work, rules::specs::Moved::refuse_if_nobody))]
pub fn work(memory: &Memory) -> Ruling
    requires { sound memory.now ≡ true }
    ensures { Did memory.entry.now result (work memory.entry.now) }
{
    match memory.running() {
        None => Ruling::NobodyRuns,
        Some(_) => Ruling::Unchanged,
    }
}

#[tactic(auto, unfolding(rules::specs::Events::finish, rules::specs::Moved::refuse_if_nobody))]
pub fn finish(memory: &mut Memory) -> Ruling
    requires { sound memory.old ≡ true }
    ensures did { Did memory.new result (finish memory.old) }
    ensures kept { sound memory.new ≡ true }
{
    let Some(t) = memory.running() else {
        return Ruling::NobodyRuns;
    };
    if memory.inside(t) {
        return Ruling::InsideAction;
    }
    memory.set_running(None);
    memory.set_place(t, Place::Ended);
    conclude(memory, Some(t))
}
