// A state in lent bytes: its fresh start, its events, its test and who runs. The layout is crate layout's.
ghost use Rattle.std.specs.Prelude.{◌≡◌};
ghost use Rattle.rules.specs.declared.Event.TheVariants.{Enter, Leave, Delay, Suspend, Release, Clock, Set, Work, Finish};
ghost use Rattle.exports.specs.Said.{said_priority};
ghost use Rattle.layout.specs.Events.{event_number, event_bytes, event_report, fresh_number, fresh_bytes, sound_number, running_number};

use rules::{Event, Priority};

// A number as a priority; 0, which is none, for a number that is none.
// 0 and no Option: `said_priority` says 0, which an event refuses as it does any number that is no priority.
fn said_priority(value: u64) -> Priority
    ensures { result ≡ said_priority value }
{
    Priority::checked(value).unwrap_or(Priority(0))
}

// The fresh state of bases and ceilings: 0, 13 or 15, the state being written each time; 10, and nothing, into too few bytes.
#[unsafe(no_mangle)]
pub extern "C" fn dispatch_fresh(bases: &[u8], ceilings: &[u8], state: &mut [u8]) -> u8
    ensures value { result ≡ fresh_number (record { bases = bases.now; ceilings = ceilings.now }) state.old }
    ensures state_after { state.new ≡
        fresh_bytes (record { bases = bases.now; ceilings = ceilings.now }) state.old }
{
    layout::fresh(bases, ceilings, state)
}

// Each event: the number of its answer, and that of its report where it is lent room for it. With the answer 0 the bytes are the next
// state's, with any other they stay as they are and the report is 0.
// Nine functions alike: each is a name that C has, and no macro may write functions here.
#[unsafe(no_mangle)]
pub extern "C" fn dispatch_enter(state: &mut [u8], object: u64, report: &mut u8) -> u8
    ensures value { result ≡ event_number state.old (Enter object) }
    ensures state_after { state.new ≡ event_bytes state.old (Enter object) }
    ensures report_after { report.new ≡ event_report state.old (Enter object) }
{
    layout::apply(state, Event::Enter(object), report)
}

#[unsafe(no_mangle)]
pub extern "C" fn dispatch_leave(state: &mut [u8], object: u64, report: &mut u8) -> u8
    ensures value { result ≡ event_number state.old (Leave object) }
    ensures state_after { state.new ≡ event_bytes state.old (Leave object) }
    ensures report_after { report.new ≡ event_report state.old (Leave object) }
{
    layout::apply(state, Event::Leave(object), report)
}

#[unsafe(no_mangle)]
pub extern "C" fn dispatch_delay(state: &mut [u8], ticks: u16, report: &mut u8) -> u8
    ensures value { result ≡ event_number state.old (Delay ticks) }
    ensures state_after { state.new ≡ event_bytes state.old (Delay ticks) }
    ensures report_after { report.new ≡ event_report state.old (Delay ticks) }
{
    layout::apply(state, Event::Delay(ticks), report)
}

#[unsafe(no_mangle)]
pub extern "C" fn dispatch_suspend(state: &mut [u8], report: &mut u8) -> u8
    ensures value { result ≡ event_number state.old Suspend }
    ensures state_after { state.new ≡ event_bytes state.old Suspend }
    ensures report_after { report.new ≡ event_report state.old Suspend }
{
    layout::apply(state, Event::Suspend, report)
}

#[unsafe(no_mangle)]
pub extern "C" fn dispatch_release(state: &mut [u8], task: u64, report: &mut u8) -> u8
    ensures value { result ≡ event_number state.old (Release task) }
    ensures state_after { state.new ≡ event_bytes state.old (Release task) }
    ensures report_after { report.new ≡ event_report state.old (Release task) }
{
    layout::apply(state, Event::Release(task), report)
}

#[unsafe(no_mangle)]
pub extern "C" fn dispatch_clock(state: &mut [u8], reading: u64, report: &mut u8) -> u8
    ensures value { result ≡ event_number state.old (Clock reading) }
    ensures state_after { state.new ≡ event_bytes state.old (Clock reading) }
    ensures report_after { report.new ≡ event_report state.old (Clock reading) }
{
    layout::apply(state, Event::Clock(reading), report)
}

#[unsafe(no_mangle)]
pub extern "C" fn dispatch_set(state: &mut [u8], task: u64, priority: u64, report: &mut u8) -> u8
    ensures value { result ≡ event_number state.old (Set task (said_priority priority)) }
    ensures state_after { state.new ≡ event_bytes state.old (Set task (said_priority priority)) }
    ensures report_after { report.new ≡ event_report state.old (Set task (said_priority priority)) }
{
    layout::apply(state, Event::Set(task, said_priority(priority)), report)
}

#[unsafe(no_mangle)]
pub extern "C" fn dispatch_work(state: &mut [u8], report: &mut u8) -> u8
    ensures value { result ≡ event_number state.old Work }
    ensures state_after { state.new ≡ event_bytes state.old Work }
    ensures report_after { report.new ≡ event_report state.old Work }
{
    layout::apply(state, Event::Work, report)
}

#[unsafe(no_mangle)]
pub extern "C" fn dispatch_finish(state: &mut [u8], report: &mut u8) -> u8
    ensures value { result ≡ event_number state.old Finish }
    ensures state_after { state.new ≡ event_bytes state.old Finish }
    ensures report_after { report.new ≡ event_report state.old Finish }
{
    layout::apply(state, Event::Finish, report)
}

// Whether the state is sound: 0, or 10.
#[unsafe(no_mangle)]
pub extern "C" fn dispatch_sound(state: &[u8]) -> u8
    ensures { result ≡ sound_number state.now }
{
    layout::sound(state)
}

// Who runs; 255 is nobody, and where the bytes are no state's or name no listed task.
#[unsafe(no_mangle)]
pub extern "C" fn dispatch_running(state: &[u8]) -> u8
    ensures { result ≡ running_number state.now }
{
    layout::running(state)
}
