// The script of a task as a part of the lent roster, and the number of its refusal.
ghost use Rattle.std.specs.Prelude.{◌≡◌, ◌<◌, Ok, Err, IfOk, MatchResult};
ghost use Rattle.format.specs.Format.{task_count, part_at};
ghost use Rattle.format.specs.Form.{form_of, script_answer, script_part};

use crate::forms;
use crate::parts::script_part;
use format::{Fault, Verdict};

// A task that is listed: 11 to 16, then 1.
#[tactic(auto, unfolding(format::specs::Form::script_answer))]
pub fn listed_task(roster: &[u8], t: usize) -> Result<u8, Fault>
    ensures value { MatchResult result (λ u. (u ≡ t) × (script_answer roster.now t ≡ Ok tt)) (λ e. script_answer roster.now t ≡ Err e) }
    ensures listed { IfOk result (λ u. (form_of roster.now ≡ Ok tt) × (u < task_count roster.now)) }
{
    forms::form(roster)?;
    if t < fields::task_count(roster) as usize {
        Ok(t as u8)
    } else {
        Err(Fault::NoSuchTask)
    }
}

// 11 to 16, then 1.
pub fn script_answer(roster: &[u8], t: usize) -> Verdict
    ensures { result ≡ script_answer roster.now t }
{
    listed_task(roster, t)?;
    Ok(())
}

// The bytes of task t's script: 11 to 16, then 1.
#[tactic(auto, using(format::proofs::FormedLaws::inside_laws))]
pub fn listed_script(roster: &[u8], t: usize) -> Result<&[u8], Fault>
    ensures { MatchResult result (λ part. (part.now ≡ part_at roster.now t) × (script_answer roster.now t ≡ Ok tt))
        (λ e. script_answer roster.now t ≡ Err e) }
{
    Ok(script_part(roster, listed_task(roster, t)?))
}

// The same, empty on a refusal.
#[tactic(auto, unfolding(format::specs::Form::script_part))]
pub fn script(roster: &[u8], t: usize) -> &[u8]
    ensures { result.now ≡ script_part roster.now t }
{
    listed_script(roster, t).unwrap_or(&roster[..0])
}
