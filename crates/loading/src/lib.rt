// Internal: pub only for our own crates. A state in rows of its own, tested for its sizes, loaded into a memory, and its rows stored
// again. Who loads says how the task records and the ceilings are read, which are values in one place and bytes in another.
#![tactic(auto)]

ghost use Rattle.std.specs.Prelude.{◌≡◌, ℕ, true, [], ◌+◌, ◌*◌, ◌≤◌, ◌<◌, List, length, get_or, map};
ghost use mathlib.Core.List.{flat_map};
ghost use Rattle.rules.specs.Limits.{task_limit, object_limit, last_priority};
ghost use Rattle.rules.specs.Model.{Model, TaskRecord, blank, with_tasks, with_ceilings, with_ready};
ghost use Rattle.memory.specs.Rows.{row_for, held_width, queue_width, held_in, queues_in};
ghost use Rattle.memory.specs.Memory.{record_of};
ghost use Rattle.loading.specs.Loading.{lengths_good, parts_fit, held_lists, with_numbers, Each, TaskFrom, CeilingFrom};

use memory::sizes::{HELD_WIDTH, PRIORITIES, QUEUE_WIDTH};
use memory::{Memory, Row};
use rules::{Priority, Roster, Task};

// The lengths in the first n rows leave room for themselves.
fn lengths_good(cells: &[u8], width: usize, n: usize) -> bool
    requires some { 0 < width }
    requires rows { n * width ≤ length cells.now }
    ensures { result ≡ lengths_good width n cells.now }
{
    for i in 0..n {
        if width <= cells[i * width] as usize {
            return false;
        }
    }
    true
}

// The counts of tasks and objects are in range, and so are the lengths in the rows that they reach.
// The parts one by one: a State has them as fields, its bytes as slices, and a struct would be made for two calls.
pub fn sizes_fit(tasks: u8, objects: u8, held: &[u8], queues: &[u8]) -> bool
    requires held_width_in_bounds { task_limit * held_width ≤ length held.now }
    requires queue_width_in_bounds { last_priority * queue_width ≤ length queues.now }
    ensures { result ≡ parts_fit tasks objects held.now queues.now }
{
    Roster::counts_good(tasks as usize, objects as usize)
        && lengths_good(held, HELD_WIDTH, tasks as usize)
        && lengths_good(queues, QUEUE_WIDTH, PRIORITIES)
}

// The first n tasks, each by its record and the row of what it holds.
// How long the rows are is a clause and no array, here and below: of a state's bytes they are a part of what is lent.
fn load_tasks<T: Fn(usize) -> Task>(memory: &mut Memory, n: usize, task: T, held: &[u8])
    requires none { memory.old.tasks ≡ [] }
    requires room { n ≤ task_limit }
    requires lengths { lengths_good held_width n held.now ≡ true }
    requires rows { length held.now ≡ task_limit * held_width }
    requires callable { (t : ℕ) → t < n → T.pre task t }
    ensures rest { memory.new ≡ with_tasks memory.old memory.new.tasks }
    ensures each { Each (TaskFrom (T.post task) held.now) blank n memory.new.tasks }
{
    for t in 0..n {
        let b = t * HELD_WIDTH;
        memory.add_task(task(t), Row::read(&held[b..b + HELD_WIDTH]));
    }
}

fn load_ceilings<C: Fn(usize) -> Priority>(memory: &mut Memory, n: usize, ceiling: C)
    requires none { memory.old.ceilings ≡ [] }
    requires room { n ≤ object_limit }
    requires callable { (o : ℕ) → o < n → C.pre ceiling o }
    ensures rest { memory.new ≡ with_ceilings memory.old memory.new.ceilings }
    ensures each { Each (CeilingFrom (C.post ceiling)) 0 n memory.new.ceilings }
{
    for o in 0..n {
        memory.add_object(ceiling(o));
    }
}

fn load_queues(memory: &mut Memory, queues: &[u8])
    requires levels { length memory.old.ready ≡ last_priority }
    requires lengths { lengths_good queue_width last_priority queues.now ≡ true }
    requires rows { length queues.now ≡ last_priority * queue_width }
    ensures { memory.new ≡ with_ready memory.old (queues_in queues.now) }
{
    for i in 0..PRIORITIES {
        let b = i * QUEUE_WIDTH;
        memory.set_queue(
            Priority(i as u8 + 1),
            Row::read(&queues[b..b + QUEUE_WIDTH]),
        );
    }
}

// The memory comes to be that of a state whose sizes fit, whatever it was: in place, since one that is handed back is copied.
// The parts one by one, as in sizes_fit: neither of the two callers has them in one value.
pub fn load<T: Fn(usize) -> Task, C: Fn(usize) -> Priority>(
    memory: &mut Memory,
    now: u64,
    running: Option<u8>,
    task_count: u8,
    task: T,
    held: &[u8],
    object_count: u8,
    ceiling: C,
    queues: &[u8],
)
    requires fits { parts_fit task_count object_count held.now queues.now ≡ true }
    requires held_rows { length held.now ≡ task_limit * held_width }
    requires queue_rows { length queues.now ≡ last_priority * queue_width }
    requires task_callable { (t : ℕ) → t < task_count → T.pre task t }
    requires ceiling_callable { (o : ℕ) → o < object_count → C.pre ceiling o }
    ensures numbers { memory.new ≡ with_numbers memory.new now running (queues_in queues.now) }
    ensures tasks { Each (TaskFrom (T.post task) held.now) blank task_count memory.new.tasks }
    ensures ceilings { Each (CeilingFrom (C.post ceiling)) 0 object_count memory.new.ceilings }
{
    memory.clear();
    memory.set_now(now);
    memory.set_running(running);
    load_tasks(memory, task_count as usize, task, held);
    load_ceilings(memory, object_count as usize, ceiling);
    load_queues(memory, queues);
}

// The row of what each task holds, an empty one for a number that is no task's.
// Beside store_queues: the rows differ in width, in what is asked of the memory and in the clause.
pub fn store_held(memory: &Memory, held: &mut [u8])
    requires tasks { length memory.now.tasks ≤ task_limit }
    requires rows { length held.old ≡ task_limit * held_width }
    ensures { held.new ≡ flat_map (row_for held_width) (held_lists memory.entry.now) }
{
    let listed = memory.task_count() as usize;
    for t in 0..listed {
        let b = t * HELD_WIDTH;
        memory.write_held(t as u8, &mut held[b..b + HELD_WIDTH]);
    }
    held[listed * HELD_WIDTH..].fill(0);
}

// The row of each ready queue.
pub fn store_queues(memory: &Memory, queues: &mut [u8])
    requires levels { length memory.now.ready ≡ last_priority }
    requires rows { length queues.old ≡ last_priority * queue_width }
    ensures { queues.new ≡ flat_map (row_for queue_width) memory.entry.now.ready }
{
    for i in 0..PRIORITIES {
        let b = i * QUEUE_WIDTH;
        memory.write_queue(Priority(i as u8 + 1), &mut queues[b..b + QUEUE_WIDTH]);
    }
}
