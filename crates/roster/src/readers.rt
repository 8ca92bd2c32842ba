// What a roster says of one task or object: each reader gives it, or why there is none.
ghost use Rattle.std.specs.Prelude.{◌≡◌, ◌≤◌, Ok, Err, IfOk, MatchResult};
ghost use Rattle.rules.specs.Limits.{largest_roster};
ghost use Rattle.format.specs.Readers.{object_answer, base_found, ceiling_found, count_found, step_found};

use crate::forms;
use crate::scripts::{listed_script, listed_task};
use fields::steps;
use format::{Fault, File, Step};
use rules::Priority;

// The base of task t: 11 to 16, then 1.
#[tactic(auto, unfolding(format::specs::Readers::base_found))]
pub fn base(roster: &[u8], t: usize) -> Result<Priority, Fault>
    ensures { result ≡ base_found roster.now t }
{
    Ok(fields::base_of(roster, listed_task(roster, t)?))
}

// An object that is listed: 11 to 16, then 2.
// Beside listed_task: count, fault and the definition in the clause differ, and what is common is the call of form.
#[tactic(auto, unfolding(format::specs::Readers::object_answer))]
fn listed_object(roster: &[u8], o: usize) -> Result<u8, Fault>
    ensures { MatchResult result (λ u. (u ≡ o) × (object_answer roster.now o ≡ Ok tt)) (λ e. object_answer roster.now o ≡ Err e) }
{
    forms::form(roster)?;
    if o < fields::object_count(roster) as usize {
        Ok(o as u8)
    } else {
        Err(Fault::NoSuchObject)
    }
}

// The ceiling of object o: 11 to 16, then 2.
#[tactic(auto, unfolding(format::specs::Readers::ceiling_found))]
pub fn ceiling(roster: &[u8], o: usize) -> Result<Priority, Fault>
    ensures { result ≡ ceiling_found roster.now o }
{
    Ok(fields::ceiling_of(roster, listed_object(roster, o)?))
}

// How many steps the script of task t has: 11 to 16, then 1.
#[tactic(auto, using(format::proofs::ReaderLaws::part_laws), unfolding(format::specs::Readers::count_found))]
pub fn step_count(roster: &[u8], t: usize) -> Result<usize, Fault>
    ensures value { result ≡ count_found roster.now t }
    ensures fits { IfOk result (λ n. n ≤ largest_roster) }
{
    Ok(listed_script(roster, t)?.len() / File::STEP)
}

// The step at position k of task t's script, Finish at its end: 11 to 16, then 1.
#[tactic(auto, using(format::proofs::ReaderLaws::part_laws), unfolding(format::specs::Readers::step_found))]
pub fn step(roster: &[u8], t: usize, k: usize) -> Result<Step, Fault>
    ensures { result ≡ step_found roster.now t k }
{
    Ok(steps::step_at(listed_script(roster, t)?, k))
}
