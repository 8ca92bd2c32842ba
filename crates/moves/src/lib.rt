// Internal: pub only for our own crates. The moves that events are made of, as in specs/Moves.antt of crate rules, on the engine's memory.
#![tactic(auto)]

ghost use Rattle.std.specs.Prelude.{◌≡◌};
ghost use Rattle.rules.specs.Model.{active};
ghost use Rattle.rules.specs.Moves.{become_ready, preempt, start, dispatch};
ghost use Rattle.moves.specs.Room.{Joins, Arrives, Starts, Dispatches, level_of, vacated};

use memory::Memory;
use rules::{Place, Priority};

pub mod effects;
pub mod waking;

// The task t, which holds nothing, becomes ready, at the tail of the queue for its base.
// What a move needs (specs/Room) is a clause and no type: it holds at one point of an event, and no value keeps it.
pub fn become_ready(memory: &mut Memory, t: u8)
    requires { Arrives memory.old t }
    ensures { memory.new ≡ become_ready memory.old t }
{
    let p = memory.base(t);
    memory.push_tail(p, t);
    memory.set_place(t, Place::Ready);
}

// The running task t, whose active priority is p, stops, and goes to the head of its queue.
#[tactic(auto, unfolding(rules::specs::Moves::preempt, rules::specs::Moves::stopped))]
pub fn preempt(memory: &mut Memory, t: u8, p: Priority)
    requires joins { Joins memory.old t }
    requires level { p.0 ≡ active memory.old t }
    ensures { memory.new ≡ preempt memory.old t }
{
    memory.push_head(p, t);
    memory.set_place(t, Place::Ready);
    memory.set_running(None);
}

// The head of the queue for p runs.
#[tactic(auto, unfolding(rules::specs::Moves::start))]
pub fn start(memory: &mut Memory, p: Priority)
    requires { Starts memory.old p.0 }
    ensures { memory.new ≡ start memory.old p.0 }
{
    let t = memory.head_of(p);
    memory.pop(p);
    memory.set_place(t, Place::Running);
    memory.set_running(Some(t));
}

// The active priority of the running task; 0, which is below every queue's, where nobody runs.
// 0 and no Option: `level_of` says 0, and one comparison tells a dispatch.
fn level(memory: &Memory) -> Priority
    requires { Dispatches memory.now }
    ensures { result.0 ≡ level_of memory.entry.now }
{
    match memory.running() {
        None => Priority(0),
        Some(t) => memory.active_inside(t),
    }
}

// The running task, if there is one, whose active priority is p, goes to the head of its queue.
fn vacate(memory: &mut Memory, p: Priority)
    requires dispatches { Dispatches memory.old }
    requires level { p.0 ≡ level_of memory.old }
    ensures { memory.new ≡ vacated memory.old }
{
    if let Some(t) = memory.running() {
        preempt(memory, t, p);
    }
}

// The head of the highest queue runs, if it is higher than the running task or nobody runs.
pub fn dispatch(memory: &mut Memory)
    requires { Dispatches memory.old }
    ensures { memory.new ≡ dispatch memory.old }
{
    let p = memory.highest();
    let a = level(memory);
    if p > a {
        vacate(memory, a);
        start(memory, p);
    }
}
