// The program: it reads a roster and events, runs them, and writes the lines of that run.
#![tactic(auto)]

ghost use Rattle.std.specs.Prelude.{◌≡◌, ◌+◌, ◌<◌, ◌≤◌, length, take, drop, IfOk, IfSome};
ghost use Rattle.std.specs.Io.KnownBytes.{Consumes, IsAtEnd};
ghost use Rattle.lines.specs.Printed.{lines_enough, printed};

use std::fs::File;
use std::io;
use std::io::Read;
use std::rt::Files;
use trace::sizes::{EVENT_SIZE, LARGEST_EVENTS, REPLY_SIZE};

mod printing;

pub use printing::printed;

// A reply to each of the events that a run takes.
const REPLIES_ROOM: usize = REPLY_SIZE * (LARGEST_EVENTS / EVENT_SIZE);

// The roster, the events and the lines have a buffer of so many bytes each: more than the longest of them, so that what fills it is
// too long.
const BUFFER_SIZE: usize = 65536;

// So many bytes past the longest events are read, so that whoever writes them is not cut off.
const LONGEST_REST: usize = 1073741824;

// One read into the buffer from the place `at` on.
// Apart from the loop, so that one read has clauses of its own; no other function here has a buffer and a place.
fn read_at<R: Read>(input: &mut R, buffer: &mut [u8], at: usize) -> io::Result<usize>
    requires { at < length buffer.old }
    ensures front { take at buffer.new ≡ take at buffer.old }
    ensures fits { IfOk result (λ n. at + n ≤ length buffer.new) }
    ensures read { IfOk result (λ n. Consumes (R.remaining input.old) (R.remaining input.new) (take n (drop at buffer.new))) }
    ensures end { IfOk result (λ n. n ≡ 0 → IsAtEnd (R.remaining input.new)) }
{
    input.read(&mut buffer[at..])
}

// Reads to the end of the input: what was read, at the start of the buffer. What is longer than the buffer, or fails on the way, counts
// as filling it: that is too long for a roster and for events, so the run answers 11 or 21. A part is never taken for the whole.
// That it is no longer than what is lent stands in four contracts here: no type holds one slice's length to another's.
fn read_to_end<'a, R: Read>(input: &mut R, buffer: &'a mut [u8]) -> &'a [u8]
    ensures prefix_len { length result.now ≤ length buffer.old }
    ensures whole { length result.now < length buffer.old → IfSome (R.remaining input.old) (λ bytes. result.now ≡ bytes) }
{
    let mut done: usize = 0;
    // A while: each read says how far it came, so there is no count to go over.
    while done < buffer.len() {
        let Ok(n) = read_at(input, buffer, done) else {
            return buffer;
        };
        if n == 0 {
            break;
        }
        done += n;
    }
    &buffer[..done]
}

// The roster's bytes; a file that cannot be opened has none.
fn read_roster<'a>(rt: &impl Files, buffer: &'a mut [u8]) -> &'a [u8]
    ensures { length result.now ≤ length buffer.old }
{
    match File::open(rt, "roster.bin") {
        Ok(mut file) => read_to_end(&mut file, buffer),
        Err(_) => &[],
    }
}

// One read: how many bytes came, 0 at the end and where it fails.
fn skip_some(input: &mut impl Read) -> usize
    ensures { result ≤ 65536 }
{
    let mut chunk = [0u8; BUFFER_SIZE];
    input.read(&mut chunk).unwrap_or(0)
}

fn skip_rest(input: &mut impl Read) {
    let mut skipped: usize = 0;
    // A while, for the same: how much a read skips is known after it.
    while skipped < LONGEST_REST {
        let n = skip_some(input);
        if n == 0 {
            break;
        }
        skipped += n;
    }
}

fn read_events<'a, R: Read>(input: &mut R, buffer: &'a mut [u8]) -> &'a [u8]
    ensures prefix_len { length result.now ≤ length buffer.old }
    ensures whole { length result.now < length buffer.old → IfSome (R.remaining input.old) (λ bytes. result.now ≡ bytes) }
{
    let room = buffer.len();
    let events = read_to_end(input, buffer);
    if events.len() == room {
        skip_rest(input);
    }
    events
}

// What the program prints, at the start of `out`.
fn text<'a>(roster: &[u8], events: &[u8], out: &'a mut [u8]) -> &'a [u8]
    requires { lines_enough ≤ length out.old }
    ensures prefix_len { length result.now ≤ length out.old }
    ensures out_after { result.now ≡ printed roster.now events.now }
{
    let mut replies = [0u8; REPLIES_ROOM];
    let size = printed(roster, events, &mut replies, out);
    &out[..size]
}

// Runs roster.bin under the events of standard input and prints the lines. Only a failed write is an error.
pub fn run_files(rt: &(impl Files + Input + Print)) -> io::Result<()> {
    let mut roster = [0u8; BUFFER_SIZE];
    let mut events = [0u8; BUFFER_SIZE];
    let mut out = [0u8; BUFFER_SIZE];
    let roster = read_roster(rt, &mut roster);
    let events = read_events(&mut rt.reader(), &mut events);
    rt.write_all(text(roster, events, &mut out))
}
