// A fresh start and the events, on a state in lent bytes.
ghost use Rattle.std.specs.Prelude.{◌≡◌, cond, None, Some};
ghost use Rattle.layout.specs.Events.{event_number, event_bytes, event_report, fresh_number, fresh_bytes, sound_number, listed_code};
ghost use Rattle.layout.specs.Events.{loaded_from, running_number};

use cells::sizes::{MARKS_AT, NOBODY, RUNNING_AT, STATE_SIZE, TASK_COUNT_AT};
use cells::{load, loadable, readable, runner_from, store};
use dispatch::State;
use memory::Memory;
use rules::{Event, Numbered, Refusal, Report};
use state_bytes::write;
use words::long_at;

// Whether the bytes are a sound state's, and then the memory comes to be that of it: in place, since one that is handed back is copied.
// Beside State::loaded: the tests and the loading differ, and what is common is the call of soundness::sound.
fn loaded(bytes: &[u8], memory: &mut Memory) -> bool
    ensures { cond result (Some memory.new) None ≡ loaded_from bytes.now }
{
    // A flag: an Option of a memory was tried, is copied on its way back, and passes the stack of docs/INTEGRATION.md.
    if !loadable(bytes) {
        return false;
    }
    load(bytes, memory);
    soundness::sound(memory, long_at(bytes, MARKS_AT))
}

// The state goes on by an event: its bytes are written anew, unless the event is refused. The report is written each time.
// The answers here are numbers and no enum: they and the byte of who runs are what the exported functions hand to C.
pub fn apply(bytes: &mut [u8], event: Event, report: &mut u8) -> u8
    ensures value { result ≡ event_number bytes.old event }
    ensures bytes_after { bytes.new ≡ event_bytes bytes.old event }
    ensures report_after { report.new ≡ event_report bytes.old event }
{
    *report = Report::Unchanged.number();
    let mut memory = Memory::new();
    if !loaded(bytes, &mut memory) {
        return Refusal::Unsound.number();
    }
    let ruling = engine::apply(&mut memory, event);
    *report = ruling.report_number();
    // The number is handed back as it is, so it is also what is tested: the answer would be a second match of the twelve rulings.
    let number = ruling.number();
    if number != 0 {
        return number;
    }
    store(bytes, &memory);
    0
}

// The fresh state of these bases and ceilings, or the one beside a refusal.
pub fn fresh(bases: &[u8], ceilings: &[u8], bytes: &mut [u8]) -> u8
    ensures value { result ≡ fresh_number (record { bases = bases.now; ceilings = ceilings.now }) bytes.old }
    ensures bytes_after { bytes.new ≡
        fresh_bytes (record { bases = bases.now; ceilings = ceilings.now }) bytes.old }
{
    if bytes.len() < STATE_SIZE {
        return Refusal::Unsound.number();
    }
    let start = State::fresh(bases, ceilings);
    write(start.state, bytes);
    start.answer.number()
}

// Whether the state is sound: 0, or 10.
pub fn sound(bytes: &[u8]) -> u8
    ensures { result ≡ sound_number bytes.now }
{
    let mut memory = Memory::new();
    if loaded(bytes, &mut memory) {
        0
    } else {
        Refusal::Unsound.number()
    }
}

// The number of a runner that is one of n tasks, or 255.
fn listed_code(n: u8, running: Option<u8>) -> u8
    ensures { result ≡ listed_code n running }
{
    running.filter(|&t| t < n).unwrap_or(NOBODY)
}

// Who runs, 255 being nobody.
pub fn running(bytes: &[u8]) -> u8
    ensures { result ≡ running_number bytes.now }
{
    if !readable(bytes) {
        return NOBODY;
    }
    listed_code(bytes[TASK_COUNT_AT], runner_from(bytes[RUNNING_AT]))
}
