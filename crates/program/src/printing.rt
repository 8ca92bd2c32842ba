// A run together with the lines that the program prints of it.
ghost use Rattle.std.specs.Prelude.{◌≡◌, cond, ◌*◌, ◌≤◌, length};
ghost use Rattle.trace.specs.Limits.{reply_size};
ghost use Rattle.trace.specs.Inputs.{event_count};
ghost use Rattle.trace.specs.Answers.{ran};
ghost use Rattle.trace.specs.Run.{buffer_of};
ghost use Rattle.lines.specs.Printed.{printed_size, printed_buffer};

use lines::lines;
use run::run;
use trace::RunAnswer;
use trace::sizes::{EVENT_SIZE, REPLY_SIZE};

// How many bytes a run that answered so has written.
fn replies_written(answer: RunAnswer, events: &[u8]) -> usize
    ensures { result ≡ cond (ran answer) (reply_size * event_count events.now) 0 }
{
    // A match: map_or(0, ..) would name the refused run first and put the product into a closure, no plainer.
    match answer {
        Ok(()) => REPLY_SIZE * (events.len() / EVENT_SIZE),
        Err(_) => 0,
    }
}

// Runs a roster under events, the replies into `replies`, and makes the lines of that run at the start of `out`: how many bytes they
// are. A refused run gives its one line and leaves `replies`; the answer is 0, and `out` stays, where `out` may be too short for
// the lines (see `lines`).
// 0 and no Option, and a length beside the buffer: callers have this answer (`printed_size`).
pub fn printed(roster: &[u8], events: &[u8], replies: &mut [u8], out: &mut [u8]) -> usize
    ensures value { result ≡ printed_size roster.now events.now (length replies.old) out.old }
    ensures replies_after { replies.new ≡ buffer_of roster.now events.now replies.old }
    ensures out_after { out.new ≡
        printed_buffer roster.now events.now (length replies.old) out.old }
    ensures upper_bound { result ≤ length out.new }
{
    let answer = run(roster, events, replies);
    let n = replies_written(answer, events);
    lines(answer, &replies[..n], out)
}
