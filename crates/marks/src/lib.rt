// Internal: pub only for our own crates. Words of bits: one bit set, cleared, tested or found; and the word of marks for the ready
// queues, whose bit p - 1 is on exactly where the queue for p is not empty.
#![tactic(auto)]

ghost use Rattle.std.specs.Prelude.{◌≡◌, ◌-◌, ◌^◌, ◌≤◌, ◌<◌, eqb};
ghost use Rattle.rules.specs.Limits.{first_priority, last_priority};
ghost use Rattle.marks.specs.Marks.{word_bits, bit_at, with_bit, Highest, mark_for, highest_on};

use rules::Priority;

// The bits of any word.
pub const BITS: usize = u64::BITS as usize;

// The highest priority whose mark is on, or 0: no queue is walked.
// 0 and no Option where none is on: the clause says `highest_on`, and a dispatch compares it as it is.
pub fn highest(word: u32) -> Priority
    ensures { result.0 ≡ highest_on word last_priority }
{
    Priority((u32::BITS - word.leading_zeros()) as u8)
}

// The mark of a queue of so many tasks, as a number.
pub fn mark_for(size: u8) -> u64
    ensures { result ≡ mark_for size }
{
    u64::from(size != 0)
}

// The word in which the bit i alone is on.
// `i < word_bits` is a clause and no type, here and below: i is a task's, an object's or a queue's number, bounded there.
fn bit(i: usize) -> u64
    requires { i < word_bits }
    ensures { result ≡ 2 ^ i }
{
    1u64 << i
}

// Two functions of a line each: with a flag, every call but those of `put` would name a constant.
pub fn with_bit(word: u64, i: usize) -> u64
    requires { i < word_bits }
    ensures { result ≡ with_bit word i 1 }
{
    word | bit(i)
}

pub fn without_bit(word: u64, i: usize) -> u64
    requires { i < word_bits }
    ensures { result ≡ with_bit word i 0 }
{
    word & !bit(i)
}

// Whether the bit i is on.
pub fn has_bit(word: u64, i: usize) -> bool
    requires { i < word_bits }
    ensures { result ≡ eqb (bit_at word i) 1 }
{
    word & bit(i) != 0
}

// The word in which the first n bits are on.
pub fn first_bits(n: usize) -> u64
    requires { n ≤ word_bits }
    ensures { result ≡ 2 ^ n - 1 }
{
    if n < BITS { bit(n) - 1 } else { u64::MAX }
}

// The highest bit that is on.
pub fn top(word: u64) -> usize
    requires { 0 < word }
    ensures { Highest word result }
{
    word.ilog2() as usize
}

// The word once the queue for p has so many tasks: its mark is set or cleared.
pub fn put(word: u64, p: Priority, size: u8) -> u64
    requires first_priority_le_p { first_priority ≤ p.0 }
    requires p_le_last_priority { p.0 ≤ last_priority }
    ensures { result ≡ with_bit word (p.0 - 1) (mark_for size) }
{
    let i = p.0 as usize - 1;
    if size == 0 {
        without_bit(word, i)
    } else {
        with_bit(word, i)
    }
}
