// The check of a roster: answers 17 to 20.
ghost use Rattle.std.specs.Prelude.{◌≡◌, true, ◌≤◌, ◌<◌, length, Ok};
ghost use Rattle.rules.specs.Limits.{object_limit};
ghost use Rattle.rules.specs.Sound.{rising};
ghost use Rattle.format.specs.Format.{task_count};
ghost use Rattle.format.specs.Steps.{steps_of};
ghost use Rattle.format.specs.Roster.{roster_of};
ghost use Rattle.format.specs.Form.{form_of};
ghost use Rattle.format.specs.Check.{top_at, fault_of, steps_fault, script_fault, roster_fault, check_of};
ghost use Rattle.roster.specs.Listed.{Listed, AllListed};
ghost use Rattle.roster.specs.Tops.{Topped};

use crate::forms::{self, Tops};
use crate::held::Held;
use crate::parts::script_part;
use fields::steps;
use format::{Fault, File, Step, Verdict};
use rules::{Priority, Roster};

// 17 to 20, of the step x at position k of task t.
#[tactic(auto, using(crate::proofs::CheckLaws::faults))]
fn step_fault(ceilings: &[u8], held: &Held, top: Priority, t: u8, k: usize, x: Step) -> Verdict
    requires held_value { rising ceilings.now top.0 held.now ≡ true }
    requires listed { Listed (length ceilings.now) x }
    ensures { result ≡ fault_of ceilings.now top.0 held.now t k x }
{
    match x {
        Step::Enter(o) if held.contains(o) => Err(Fault::WhileHeld(t, k)),
        Step::Enter(o) if ceilings[o as usize] < held.highest(ceilings, top).0 => {
            Err(Fault::LowCeiling(t, k))
        }
        Step::Leave(o) if !held.is_innermost(o) => Err(Fault::NotInnermost(t, k)),
        Step::Set(u, _) if u != t => Err(Fault::OtherTask(t, k)),
        Step::Delay(_) | Step::Suspend | Step::Again | Step::Finish if held.something() => {
            Err(Fault::WhileHeld(t, k))
        }
        _ => Ok(()),
    }
}

// 17 to 20, of one script: the first fault, the script's end counting as a step. Work, the most frequent step, breaks nothing and
// leaves held what it found, so only its code is read.
fn steps_fault(ceilings: &[u8], part: &[u8], top: Priority, t: u8) -> Verdict
    requires ceilings_len_bound { length ceilings.now ≤ object_limit }
    requires all_listed { AllListed (length ceilings.now) (steps_of part.now) }
    ensures { result ≡ steps_fault ceilings.now top.0 t (steps_of part.now) }
{
    let n = part.len() / File::STEP;
    let mut held = Held::new();
    for k in 0..n {
        if part[File::STEP * k] == Step::WORK {
            continue;
        }
        let x = steps::step_at(part, k);
        step_fault(ceilings, &held, top, t, k, x)?;
        held.after(x);
    }
    step_fault(ceilings, &held, top, t, n, Step::Finish)
}

// What the form gave is asked by these three alone, and kept by a Machine: a type would be made once and read here only.
fn script_fault(roster: &[u8], ceilings: &[u8], top: Priority, t: u8) -> Verdict
    requires roster_value { form_of roster.now ≡ Ok tt }
    requires ceilings_value { ceilings.now ≡ (roster_of roster.now).ceilings }
    requires t_bound { t < task_count roster.now }
    requires top_value { top.0 ≡ top_at (roster_of roster.now) t }
    ensures { result ≡ script_fault (roster_of roster.now) t }
{
    steps_fault(ceilings, script_part(roster, t), top, t)
}

// 17 to 20, in task and step order.
fn scripts_fault(roster: &[u8], ceilings: &[u8], tops: &Tops) -> Verdict
    requires roster_value { form_of roster.now ≡ Ok tt }
    requires ceilings_value { ceilings.now ≡ (roster_of roster.now).ceilings }
    requires topped { Topped roster.now tops.now }
    ensures { result ≡ roster_fault (roster_of roster.now) }
{
    for t in 0..fields::task_count(roster) {
        script_fault(roster, ceilings, tops[t as usize], t)?;
    }
    Ok(())
}

// The ceilings are read once for all scripts.
#[tactic(auto, using(format::proofs::FormedLaws::few_laws))]
fn roster_fault(roster: &[u8], tops: &Tops) -> Verdict
    requires roster_value { form_of roster.now ≡ Ok tt }
    requires topped { Topped roster.now tops.now }
    ensures { result ≡ roster_fault (roster_of roster.now) }
{
    let mut cells = [0u8; Roster::OBJECTS];
    fields::read_ceilings(roster, &mut cells);
    let n = fields::object_count(roster) as usize;
    scripts_fault(roster, &cells[..n], tops)
}

// The check of a roster: 11 to 20.
#[tactic(auto, unfolding(format::specs::Check::check_of))]
pub fn check(roster: &[u8]) -> Verdict
    ensures { result ≡ check_of roster.now }
{
    let mut tops = [Priority(0); Roster::TASKS];
    forms::form_and_tops(roster, &mut tops)?;
    roster_fault(roster, &tops)
}
