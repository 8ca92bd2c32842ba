// Internal: pub only for our own crates. The events of a run, from their bytes.
#![tactic(auto)]

ghost use Rattle.std.specs.Prelude.{◌≡◌, ◌<◌};
ghost use Rattle.rules.specs.Lists.{below};
ghost use Rattle.trace.specs.Inputs.{event_count, event_good, events_good, input_at};
ghost use Rattle.inputs.specs.Masks.{unused_bits, unknown_kinds, fault_in};

use trace::Input;
use trace::sizes::{CLOCK, EVENT_SIZE, LARGEST_EVENTS, RELEASE, SET, STEP};
use words::number_in;

// By kind, the bits of a record that have to be 0. In one table of pairs with the next, it is built anew for each record, which is slower.
const UNUSED: [u64; 8] = [
    0,
    0xFF00,
    0xFFFF_FFFF_FFFF_0000,
    0xFFFF_FFFF_FFFF_FF00,
    0,
    0,
    0,
    0,
];

// By kind, 1 where there is no such kind.
const UNKNOWN: [u64; 8] = [1, 0, 0, 0, 0, 1, 1, 1];

// 0 where the fields of a record whose kind is below 8 are good, without a jump: one on each record's kind is often mispredicted.
fn fault_of(unused: &[u64; 8], unknown: &[u64; 8], fields: u64) -> u64
    requires unused_value { unused.now ≡ unused_bits }
    requires unknown_value { unknown.now ≡ unknown_kinds }
    ensures { result ≡ fault_in fields }
{
    let kind = (fields % 8) as usize;
    (fields & unused[kind]) | unknown[kind]
}

// The faults of all records joined, and all records joined, whose kinds are below 8 where all are. The tables are copied, since read as
// constants they take an instruction more for each record.
fn each_good(s: &[u8]) -> bool
    ensures { result ≡ below (event_count s.now) (event_good s.now) }
{
    let unused = UNUSED;
    let unknown = UNKNOWN;
    let mut faults = 0;
    let mut joined = 0;
    for &event in s.as_chunks::<EVENT_SIZE>().0 {
        let fields = u64::from_le_bytes(event);
        faults |= fault_of(&unused, &unknown, fields);
        joined |= fields;
    }
    (faults | (joined / 8 % 32)) == 0
}

// 21, where this is false.
pub fn events_good(s: &[u8]) -> bool
    ensures { result ≡ events_good s.now }
{
    s.len() % EVENT_SIZE == 0 && s.len() <= LARGEST_EVENTS && each_good(s)
}

// The event at i. A Step, the most frequent, is told first, and its other bytes are not read: a bad record reads as a Step too.
pub fn input_at(s: &[u8], i: usize) -> Input
    requires { i < event_count s.now }
    ensures { result ≡ input_at s.now i }
{
    let at = EVENT_SIZE * i;
    let kind = s[at];
    if kind == STEP {
        return Input::Step;
    }
    let a = s[at + 1];
    let value = number_in(s, at) >> 16;
    // A match and no TryFrom: an event is made of three fields, and a bad record reads as a Step.
    match kind {
        CLOCK if a == 0 => Input::Clock(value),
        RELEASE if value == 0 => Input::Release(a),
        SET => Input::Set(a, value),
        _ => Input::Step,
    }
}
