// The steps of a script, from its bytes.
ghost use Rattle.std.specs.Prelude.{◌≡◌, ◌+◌, ◌<◌};
ghost use Rattle.format.specs.Steps.{set_step, step_of, steps_of, step_in};
ghost use Rattle.rules.specs.Priorities.{checked_of};

use format::{File, Step};
use rules::Priority;

// A Set; Finish where the value is no priority.
#[tactic(auto, unfolding(format::specs::Steps::set_step))]
fn set_step(a: u8, b: u16) -> Step
    ensures { result ≡ set_step a (checked_of b) }
{
    // A match, as `set_step` is one: map_or would name Finish, the odd case, first.
    match Priority::checked(b as u64) {
        Some(p) => Step::Set(a, p),
        None => Step::Finish,
    }
}

// The step of four bytes; Finish where they are none.
// A match and no TryFrom: a step is made of three numbers, and bytes that are none read as Finish.
#[tactic(auto, unfolding(format::specs::Steps::step_of))]
pub fn step_of(code: u8, a: u8, b: u16) -> Step
    ensures { result ≡ step_of code a b }
{
    match code {
        Step::ENTER => Step::Enter(a),
        Step::LEAVE => Step::Leave(a),
        Step::DELAY => Step::Delay(b),
        Step::WORK => Step::Work,
        Step::SUSPEND => Step::Suspend,
        Step::RELEASE => Step::Release(a),
        Step::SET => set_step(a, b),
        Step::AGAIN => Step::Again,
        _ => Step::Finish,
    }
}

// The step at position k of a script's bytes; Finish past the last. Work, the most frequent, is told first.
#[tactic(auto, using(format::proofs::StepLaws::read_laws), unfolding(format::specs::Steps::step_of))]
pub fn step_at(part: &[u8], k: usize) -> Step
    ensures { result ≡ step_in (steps_of part.now) k }
{
    if k >= part.len() / File::STEP {
        return Step::Finish;
    }
    let at = File::STEP * k;
    let code = part[at];
    if code == Step::WORK {
        return Step::Work;
    }
    step_of(code, part[at + 1], words::word_in(part, at + 2))
}
