// Internal: pub only for our own crates. More than one number in one, for callers in other languages: an answer and its place, and
// what a reader of a roster finds.
#![tactic(auto)]

ghost use Rattle.std.specs.Prelude.{◌≡◌, ℕ, ◌≤◌};
ghost use Rattle.packed.specs.Packed.{last_position, packed, packed_found, step_word, word_of};

use format::{Fault, Placed, Step};
use rules::{Numbered, Priority};

// An answer: its number, 256 times the task, 65536 times the step.
#[tactic(auto, unfolding(crate::specs::Packed::packed))]
pub fn pack<A: Placed + Copy>(answer: A) -> u64
    requires { A.position answer ≤ last_position }
    ensures { result ≡ packed (A.number answer) (A.task answer) (A.position answer) }
{
    answer.number() as u64 + 256 * answer.task() as u64 + 65536 * answer.position() as u64
}

// What a reader finds, in one number.
// A trait of its own and no Into: an impl of From for u32 here would have neither its trait nor a type of this crate.
pub trait Word {
    ghost word: { Self → ℕ };

    fn word(self) -> u32
        ensures { result ≡ word self };
}

impl Word for Priority {
    ghost word = { λ p. p.0 };

    fn word(self) -> u32 {
        self.0 as u32
    }
}

impl Word for u32 {
    ghost word = { λ n. n };

    fn word(self) -> u32 {
        self
    }
}

// By cases: each step packs its own operands, and Finish, which no script has, is 0 (word_of).
impl Word for Step {
    ghost word = { word_of };

    fn word(self) -> u32 {
        match self {
            Step::Enter(o) => step_word(Step::ENTER, o, 0),
            Step::Leave(o) => step_word(Step::LEAVE, o, 0),
            Step::Delay(d) => step_word(Step::DELAY, 0, d),
            Step::Work => step_word(Step::WORK, 0, 0),
            Step::Suspend => step_word(Step::SUSPEND, 0, 0),
            Step::Release(t) => step_word(Step::RELEASE, t, 0),
            Step::Set(t, p) => step_word(Step::SET, t, p.0 as u16),
            Step::Again => step_word(Step::AGAIN, 0, 0),
            Step::Finish => 0,
        }
    }
}

fn step_word(code: u8, a: u8, b: u16) -> u32
    ensures { result ≡ step_word code a b }
{
    code as u32 + 256 * (a as u32) + 65536 * (b as u32)
}

// 256 times what is found, or the number of the refusal.
pub fn pack_found<T: Word>(found: Result<T, Fault>) -> u64
    ensures { result ≡ packed_found T.word found }
{
    match found {
        Ok(x) => 256 * u64::from(x.word()),
        Err(fault) => fault.number() as u64,
    }
}
