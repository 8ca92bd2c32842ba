// What a roster says of one task or object, each in one number: 256 times the value, or the number of the refusal.
ghost use Rattle.std.specs.Prelude.{◌≡◌};
ghost use Rattle.format.specs.Readers.{base_found, ceiling_found, count_found, step_found};
ghost use Rattle.packed.specs.Packed.{packed_priority, packed_count, packed_step};

use packed::pack_found;

// The base of a task: 256 times it; or 11 to 16, then 1.
#[unsafe(no_mangle)]
pub extern "C" fn dispatch_base(roster: &[u8], task: u64) -> u64
    ensures { result ≡ packed_priority (base_found roster.now task) }
{
    pack_found(roster::base(roster, task as usize))
}

// The ceiling of an object: 256 times it; or 11 to 16, then 2.
#[unsafe(no_mangle)]
pub extern "C" fn dispatch_ceiling(roster: &[u8], object: u64) -> u64
    ensures { result ≡ packed_priority (ceiling_found roster.now object) }
{
    pack_found(roster::ceiling(roster, object as usize))
}

// How many steps a task's script has: 256 times it; or 11 to 16, then 1.
#[unsafe(no_mangle)]
pub extern "C" fn dispatch_step_count(roster: &[u8], task: u64) -> u64
    ensures { result ≡ packed_count (count_found roster.now task) }
{
    pack_found(roster::step_count(roster, task as usize).map(|n| n as u32))
}

// One step of a task's script, Finish at its end: 256 times its four bytes; or 11 to 16, then 1.
#[unsafe(no_mangle)]
pub extern "C" fn dispatch_step(roster: &[u8], task: u64, step: u64) -> u64
    ensures { result ≡ packed_step (step_found roster.now task step) }
{
    pack_found(roster::step(roster, task as usize, step as usize))
}
