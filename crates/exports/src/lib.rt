// Functions for Rust, C and Ada, on numbers and byte slices.
#![tactic(auto)]

ghost use Rattle.std.specs.Prelude.{◌≡◌, length};
ghost use Rattle.format.specs.Answers.{number_of};
ghost use Rattle.format.specs.Form.{form_of, script_answer, script_part};
ghost use Rattle.format.specs.Check.{check_of};
ghost use Rattle.trace.specs.Run.{answer_of, buffer_of};
ghost use Rattle.packed.specs.Packed.{packed_verdict, packed_run, script_start};

use packed::pack;
use rules::Numbered;

mod boards;
mod readers;
mod states;
mod writing;

// The form of a roster: number, 256 times the task, 65536 times the step.
#[unsafe(no_mangle)]
pub extern "C" fn dispatch_form(roster: &[u8]) -> u64
    ensures { result ≡ packed_verdict (form_of roster.now) }
{
    pack(roster::form(roster))
}

// The check of a roster, in the same packing.
#[unsafe(no_mangle)]
pub extern "C" fn dispatch_check(roster: &[u8]) -> u64
    ensures { result ≡ packed_verdict (check_of roster.now) }
{
    pack(roster::check(roster))
}

// The number of a script's refusal: 11 to 16, then 1; or 0.
#[unsafe(no_mangle)]
pub extern "C" fn dispatch_script_number(roster: &[u8], t: u64) -> u8
    ensures { result ≡ number_of (script_answer roster.now t) }
{
    roster::script_answer(roster, t as usize).number()
}

// Where a task's script starts in the roster; 0 on a refusal.
#[unsafe(no_mangle)]
pub extern "C" fn dispatch_script_start(roster: &[u8], t: u64) -> u64
    ensures { result ≡ script_start roster.now t }
{
    roster::listed_task(roster, t as usize).map_or(0, |u| fields::start_at(roster, u) as u64)
}

// The length of a task's script in bytes; 0 on a refusal.
#[unsafe(no_mangle)]
pub extern "C" fn dispatch_script_length(roster: &[u8], t: u64) -> u64
    ensures { result ≡ length (script_part roster.now t) }
{
    roster::script(roster, t as usize).len() as u64
}

// A run of a roster under events, its answer in the same packing; three bytes per event in the buffer.
#[unsafe(no_mangle)]
pub extern "C" fn dispatch_run(roster: &[u8], events: &[u8], buffer: &mut [u8]) -> u64
    ensures value { result ≡ packed_run (answer_of roster.now events.now (length buffer.old)) }
    ensures buffer_after { buffer.new ≡ buffer_of roster.now events.now buffer.old }
{
    pack(run::run(roster, events, buffer))
}
