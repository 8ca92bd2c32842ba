// Internal: pub only for our own crates. The test of soundness, clause by clause as in specs/Sound.antt of crate rules, of a memory,
// and of the word of marks that a state holds.
#![tactic(auto)]

ghost use Rattle.std.specs.Prelude.{◌≡◌, true, ◌&&◌, [], ◌-◌, ◌*◌, ◌<◌, eqb, length, map, drop};
ghost use Rattle.rules.specs.Limits.{task_limit, last_priority};
ghost use Rattle.rules.specs.Priorities.{in_range, level};
ghost use Rattle.rules.specs.Model.{task_at};
ghost use Rattle.rules.specs.Sound.{each_priority, waiting_good, record_good, due_good, in_one_place, distinct, rising};
ghost use Rattle.rules.specs.Sound.{sizes_good, runner_good, highest_runs, sound};
ghost use Rattle.rules.specs.Lists.{all_of, below};
ghost use Rattle.marks.specs.Marks.{word_bits, marks_of};
ghost use Rattle.memory.specs.Memory.{waiting_in, HasQueue};
ghost use Rattle.soundness.specs.Tested.{all_below, held_good_at, holder_here, waits_inside, task_sound, queue_sound, Counted};

use memory::Memory;
use memory::objects::ceiling_of;
use memory::sizes::{LAST_DELAY, LAST_READING};
use rules::{Place, Priority, Roster};

// The ceilings are in range.
// Beside all_in_range of ranges: a memory has Priorities and callers lend bytes; a line each.
fn ceilings_good(ceilings: &[Priority]) -> bool
    ensures { result ≡ all_of in_range (map level ceilings.now) }
{
    ceilings.iter().all(|p| p.in_range())
}

// Who runs is a task.
#[tactic(auto, unfolding(rules::specs::Sound::runner_good))]
fn runner_good(memory: &Memory) -> bool
    ensures { result ≡ runner_good memory.entry.now memory.entry.now.running }
{
    let n = memory.task_count();
    memory.running().is_none_or(|t| t < n)
}

#[tactic(auto, unfolding(rules::specs::Sound::waiting_good, memory::specs::Memory::waiting_in))]
fn waiting_good(waiting: Option<Priority>) -> bool
    ensures { result ≡ waiting_good (waiting_in waiting) }
{
    waiting.is_none_or(|p| p.in_range())
}

fn all_below(held: &[u8], n: u8) -> bool
    ensures { result ≡ all_below n held.now }
{
    held.iter().all(|&o| o < n)
}

// A due time after now, and not too far past it.
fn due_good(now: u64, place: Place) -> bool
    ensures { result ≡ due_good now place }
{
    // Who is not delayed has no due time: `true` is another answer than the test's, so no `matches!`.
    match place {
        Place::Delayed(due) => now < due && due - now <= LAST_DELAY,
        _ => true,
    }
}

// No object stands twice: those seen are noted in a word of bits.
fn distinct(held: &[u8]) -> bool
    requires { all_below word_bits held.now ≡ true }
    ensures { result ≡ distinct held.now }
{
    let mut seen = 0;
    for &o in held {
        if marks::has_bit(seen, o as usize) {
            return false;
        }
        seen = marks::with_bit(seen, o as usize);
    }
    true
}

// The ceilings of what is held do not fall, from p on.
fn rises(ceilings: &[Priority], p: Priority, held: &[u8]) -> bool
    ensures { result ≡ rising (map level ceilings.now) p.0 held.now }
{
    let mut low = p;
    for &o in held {
        let c = ceiling_of(ceilings, o);
        if c < low {
            return false;
        }
        low = c;
    }
    true
}

// The counts, now, the ceilings and the running task are in range.
fn head_good(memory: &Memory) -> bool
    requires { length memory.now.ready ≡ last_priority }
    ensures { result ≡ (sizes_good memory.entry.now && runner_good memory.entry.now memory.entry.now.running) }
{
    Roster::counts_good(memory.task_count() as usize, memory.object_count() as usize)
        && memory.now() <= LAST_READING
        && ceilings_good(memory.ceilings())
        && runner_good(memory)
}

// No ready task is above the running one, and somebody runs if one is ready.
fn highest_runs(memory: &Memory) -> bool
    ensures { result ≡ highest_runs memory.entry.now memory.entry.now.running }
{
    let top = memory.highest();
    match memory.running() {
        // 0 is no priority: `Memory::highest` says it where every queue is empty.
        None => top.0 == 0,
        Some(t) => top <= memory.active(t),
    }
}

// The bases and the held objects of t are in range.
fn record_good(memory: &Memory, t: u8) -> bool
    requires { t < length memory.now.tasks }
    ensures { result ≡ record_good memory.entry.now (task_at memory.entry.now t) }
{
    memory.base(t).in_range()
        && waiting_good(memory.waiting(t))
        && all_below(memory.held(t), memory.object_count())
}

// t is in one place.
// `sizes_good` and `Counted` are clauses: `head_good` tests the one, and the other changes with each queue.
fn one_place(memory: &Memory, counts: &[u16; Roster::TASKS], t: u8) -> bool
    requires sizes { sizes_good memory.now ≡ true }
    requires there { t < length memory.now.tasks }
    requires counted { Counted counts.now (last_priority * task_limit) [] memory.now.ready }
    ensures { result ≡ in_one_place memory.entry.now t }
{
    let place = memory.place(t);
    (memory.running() == Some(t)) == (place == Place::Running)
        && counts[t as usize] == u16::from(place == Place::Ready)
}

// What t, whose record is good, holds is held once, with ceilings that do not fall.
fn held_good(memory: &Memory, t: u8) -> bool
    requires sizes { sizes_good memory.now ≡ true }
    requires there { t < length memory.now.tasks }
    requires good { record_good memory.now (task_at memory.now t) ≡ true }
    ensures { result ≡ held_good_at memory.entry.now (task_at memory.entry.now t) }
{
    distinct(memory.held(t)) && rises(memory.ceilings(), memory.base(t), memory.held(t))
}

// A holder is ready or running; who holds nothing has no base that waits.
fn holder_good(memory: &Memory, t: u8) -> bool
    requires { t < length memory.now.tasks }
    ensures { result ≡ (holder_here (task_at memory.entry.now t) && waits_inside (task_at memory.entry.now t)) }
{
    if memory.held(t).is_empty() {
        memory.waiting(t).is_none()
    } else {
        matches!(memory.place(t), Place::Ready | Place::Running)
    }
}

// All clauses about t.
fn task_good(memory: &Memory, counts: &[u16; Roster::TASKS], t: u8) -> bool
    requires sizes { sizes_good memory.now ≡ true }
    requires there { t < length memory.now.tasks }
    requires counted { Counted counts.now (last_priority * task_limit) [] memory.now.ready }
    ensures { result ≡ task_sound memory.entry.now t }
{
    record_good(memory, t)
        && one_place(memory, counts, t)
        && due_good(memory.now(), memory.place(t))
        && held_good(memory, t)
        && holder_good(memory, t)
}

// All tasks in the queue for p have the active priority p, so that each is a task; and each entry is counted.
fn queue_good(memory: &Memory, counts: &mut [u16; Roster::TASKS], p: Priority) -> bool
    requires sizes { sizes_good memory.now ≡ true }
    requires level { HasQueue p.0 }
    requires counted { Counted counts.old ((p.0 - 1) * task_limit) (drop (p.0 - 1) memory.now.ready) memory.now.ready }
    ensures value { result ≡ queue_sound memory.entry.now p.0 }
    ensures counted { result ≡ true → Counted counts.new (p.0 * task_limit) (drop p.0 memory.entry.now.ready) memory.entry.now.ready }
{
    let queue = memory.queue(p);
    for &t in queue {
        if memory.active(t) != p {
            return false;
        }
        counts[t as usize] += 1;
    }
    true
}

// All clauses about the queues; and how often each task stands in them, in one pass.
fn queues_good(memory: &Memory, counts: &mut [u16; Roster::TASKS]) -> bool
    requires sizes { sizes_good memory.now ≡ true }
    requires counted { Counted counts.old 0 memory.now.ready memory.now.ready }
    ensures value { result ≡ each_priority (queue_sound memory.entry.now) }
    ensures counted { result ≡ true → Counted counts.new (last_priority * task_limit) [] memory.entry.now.ready }
{
    for i in 0..Priority::LAST.0 {
        if !queue_good(memory, counts, Priority(i + 1)) {
            return false;
        }
    }
    true
}

fn tasks_good(memory: &Memory, counts: &[u16; Roster::TASKS]) -> bool
    requires sizes { sizes_good memory.now ≡ true }
    requires counted { Counted counts.now (last_priority * task_limit) [] memory.now.ready }
    ensures { result ≡ below (length memory.entry.now.tasks) (task_sound memory.entry.now) }
{
    for t in 0..memory.task_count() {
        if !task_good(memory, counts, t) {
            return false;
        }
    }
    true
}

// The word of marks that the state holds is that of its queues, and all clauses hold.
pub fn sound(memory: &Memory, marks: u32) -> bool
    ensures { result ≡ (eqb marks (marks_of memory.entry.now.ready) && sound memory.entry.now) }
{
    let word = memory.marks();
    let mut counts = [0; Roster::TASKS];
    marks == word
        && head_good(memory)
        && highest_runs(memory)
        && queues_good(memory, &mut counts)
        && tasks_good(memory, &counts)
}
