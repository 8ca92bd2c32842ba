// A run: what it answers, decided first, and then one pass over its events.
ghost use Rattle.std.specs.Prelude.{◌≡◌, ◌*◌, ◌≤◌, length};
ghost use Rattle.std.proofs.lemmas.List.Edits.{sets};
ghost use Rattle.trace.specs.Limits.{reply_size};
ghost use Rattle.trace.specs.Inputs.{event_count, inputs_of};
ghost use Rattle.format.specs.Check.{Passes};
ghost use Rattle.trace.specs.Run.{answer_of, replies_of, buffer_of};
ghost use Rattle.turns.specs.Run.{replies};

use inputs::{events_good, input_at};
use memory::Memory;
use roster::check;
use rules::Roster;
use trace::sizes::{EVENT_SIZE, NOBODY, REPLY_SIZE};
use trace::{RunAnswer, RunError};
use turns::{Machine, Scripts};

// Each event in order, and its reply: its answer, the running task or NOBODY, and its report.
fn pass(machine: &mut Machine, events: &[u8], buffer: &mut [u8])
    requires { reply_size * event_count events.now ≤ length buffer.old }
    ensures { buffer.new ≡ sets buffer.old 0 (replies machine.old (inputs_of events.now)) }
{
    for i in 0..events.len() / EVENT_SIZE {
        let x = input_at(events, i);
        let ruling = machine.happen(x);
        let at = REPLY_SIZE * i;
        buffer[at] = ruling.number();
        buffer[at + 1] = machine.running().unwrap_or(NOBODY);
        buffer[at + 2] = ruling.report_number();
    }
}

// A run that nothing refuses. Apart from the tests, since a function clears all that it keeps at its start.
fn run_through(roster: &[u8], events: &[u8], buffer: &mut [u8])
    requires passes { Passes roster.now }
    requires room { reply_size * event_count events.now ≤ length buffer.old }
    ensures { buffer.new ≡ sets buffer.old 0 (replies_of roster.now events.now) }
{
    let mut memory = Memory::new();
    let mut positions = [0; Roster::TASKS];
    let scripts = Scripts::new(roster);
    let mut machine = Machine::new(&scripts, &mut memory, &mut positions);
    pass(&mut machine, events, buffer);
}

// Runs a roster under events: three bytes per event into the buffer, its answer, the running task or 255, and its report. A refused run
// writes nothing, and bytes past the last reply stay.
pub fn run(roster: &[u8], events: &[u8], buffer: &mut [u8]) -> RunAnswer
    ensures value { result ≡ answer_of roster.now events.now (length buffer.old) }
    ensures buffer_after { buffer.new ≡ buffer_of roster.now events.now buffer.old }
{
    check(roster)?;
    if !events_good(events) {
        return Err(RunError::BadEvents);
    }
    if buffer.len() < REPLY_SIZE * (events.len() / EVENT_SIZE) {
        return Err(RunError::ShortBuffer);
    }
    run_through(roster, events, buffer);
    Ok(())
}
