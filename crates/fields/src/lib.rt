// Internal: pub only for our own crates. The numbers and steps of a roster, read from its bytes.
#![tactic(auto)]

ghost use Rattle.std.specs.Prelude.{◌≡◌, ◌+◌, ◌≤◌, ◌<◌, length, take};
ghost use Rattle.rules.specs.Model.{ceiling_of};
ghost use Rattle.format.specs.Format.{trailer, task_count, object_count, task_table, object_table};
ghost use Rattle.format.specs.Format.{task_row, object_row, base_at, start_at, length_at};
ghost use Rattle.format.specs.Roster.{roster_of, base_of};

use format::File;
use rules::Priority;

pub mod steps;

// Where the trailer starts.
#[tactic(auto, unfolding(format::specs::Format::trailer))]
pub fn trailer_of(s: &[u8]) -> usize
    ensures { result ≡ trailer s.now }
{
    s.len().saturating_sub(File::TRAILER)
}

// A line for each field of the trailer and of a row: a const parameter for its place would name the place and no more.
#[tactic(auto, unfolding(format::specs::Format::task_count, format::specs::Format::trailer))]
pub fn task_count(s: &[u8]) -> u8
    ensures { result ≡ task_count s.now }
{
    words::byte_at(s, trailer_of(s) + 2)
}

#[tactic(auto, unfolding(format::specs::Format::object_count, format::specs::Format::trailer))]
pub fn object_count(s: &[u8]) -> u8
    ensures { result ≡ object_count s.now }
{
    words::byte_at(s, trailer_of(s) + 3)
}

#[tactic(auto, unfolding(format::specs::Format::object_table, format::specs::Format::trailer))]
pub fn object_table(s: &[u8]) -> u16
    ensures { result ≡ object_table s.now }
{
    words::word_at(s, trailer_of(s) + 4)
}

#[tactic(auto, unfolding(format::specs::Format::task_table, format::specs::Format::trailer))]
pub fn task_table(s: &[u8]) -> u16
    ensures { result ≡ task_table s.now }
{
    words::word_at(s, trailer_of(s) + 6)
}

#[tactic(auto, unfolding(format::specs::Format::task_row))]
pub fn task_row(s: &[u8], t: u8) -> u32
    ensures { result ≡ task_row s.now t }
{
    task_table(s) as u32 + File::TASK_ROW * t as u32
}

#[tactic(auto, unfolding(format::specs::Format::object_row))]
pub fn object_row(s: &[u8], o: u8) -> u32
    ensures { result ≡ object_row s.now o }
{
    object_table(s) as u32 + File::OBJECT_ROW * o as u32
}

#[tactic(auto, unfolding(format::specs::Format::base_at))]
pub fn base_at(s: &[u8], t: u8) -> Priority
    ensures { result.0 ≡ base_at s.now t }
{
    Priority(words::byte_at(s, task_row(s, t) as usize))
}

#[tactic(auto, unfolding(format::specs::Format::start_at))]
pub fn start_at(s: &[u8], t: u8) -> u16
    ensures { result ≡ start_at s.now t }
{
    words::word_at(s, task_row(s, t) as usize + 2)
}

#[tactic(auto, unfolding(format::specs::Format::length_at))]
pub fn length_at(s: &[u8], t: u8) -> u16
    ensures { result ≡ length_at s.now t }
{
    words::word_at(s, task_row(s, t) as usize + 4)
}

// The base of a task; of one that is not listed, 0.
// 0 and no Option: the definition `base_of` says 0.
#[tactic(auto, using(format::proofs::FormatLaws::read_laws))]
pub fn base_of(s: &[u8], t: u8) -> Priority
    ensures { result.0 ≡ base_of (roster_of s.now) t }
{
    if t < task_count(s) {
        base_at(s, t)
    } else {
        Priority(0)
    }
}

// The ceiling of an object; of one that is not listed, 0.
// 0 and no Option, as `ceiling_of` of specs/; beside base_of: count and row differ, what is common is one comparison.
#[tactic(auto, using(format::proofs::FormatLaws::read_laws), unfolding(format::specs::Format::ceiling_at))]
pub fn ceiling_of(s: &[u8], o: u8) -> Priority
    ensures { result.0 ≡ ceiling_of (roster_of s.now).ceilings o }
{
    if o < object_count(s) {
        Priority(words::byte_at(s, object_row(s, o) as usize))
    } else {
        Priority(0)
    }
}

// The bases, in the first cells. array::from_fn was tried, which goes over all cells, of tasks that are not there too.
// Into the first cells of what is lent, and the count stays the roster's: there is no heap.
#[tactic(auto, using(format::proofs::FormatLaws::read_laws))]
pub fn read_bases(s: &[u8], bases: &mut [u8])
    requires { task_count s.now ≤ length bases.old }
    ensures { take (task_count s.now) bases.new ≡ (roster_of s.now).bases }
{
    for t in 0..task_count(s) {
        bases[t as usize] = base_of(s, t).0;
    }
}

// The ceilings, in the first cells.
#[tactic(auto, using(format::proofs::FormatLaws::read_laws))]
pub fn read_ceilings(s: &[u8], ceilings: &mut [u8])
    requires { object_count s.now ≤ length ceilings.old }
    ensures { take (object_count s.now) ceilings.new ≡ (roster_of s.now).ceilings }
{
    for o in 0..object_count(s) {
        ceilings[o as usize] = ceiling_of(s, o).0;
    }
}
