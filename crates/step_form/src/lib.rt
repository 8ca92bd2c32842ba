// Internal: pub only for our own crates. The form of a script's steps: answer 16.
#![tactic(auto)]

ghost use Rattle.std.specs.Prelude.{◌≡◌, ◌&&◌, suc, ◌<◌, eqb};
ghost use Rattle.format.specs.Form.{is_step, unused_zero, names_listed, stands_right, step_good, steps_form};
ghost use Rattle.format.specs.Steps.{a_at, b_at, step_count, steps_of};
ghost use Rattle.format.specs.Check.{own_set, top_of};
ghost use Rattle.format.specs.Readers.{found_by};

mod limits;

use fields::steps;
use format::{Fault, File, Step};
pub use limits::Limits;
use rules::Priority;

// A step, and zeros in its unused operands.
// Arms with true and false: which operands a step leaves unused is another thing for each, and no equality.
// a and b apart, here, in step_of and in step_word: bytes of the file, of which a Step is what is kept.
#[tactic(auto, unfolding(format::specs::Form::is_step, format::specs::Form::unused_zero))]
fn operands_good(a: u8, b: u16, x: Step) -> bool
    ensures { result ≡ (is_step x && unused_zero a b x) }
{
    match x {
        Step::Enter(_) | Step::Leave(_) | Step::Release(_) => b == 0,
        Step::Delay(_) => a == 0,
        Step::Work | Step::Suspend | Step::Again => a == 0 && b == 0,
        Step::Set(_, _) => true,
        Step::Finish => false,
    }
}

// The last arm is true, since the other steps name nothing: the bounds before it are not a pattern.
// The two counts and no Limits: `names_listed` is of them, and reads no table.
#[tactic(auto, unfolding(format::specs::Form::names_listed))]
fn names_listed(tasks: u8, objects: u8, x: Step) -> bool
    ensures { result ≡ names_listed tasks objects x }
{
    match x {
        Step::Enter(o) | Step::Leave(o) => o < objects,
        Step::Release(t) | Step::Set(t, _) => t < tasks,
        _ => true,
    }
}

// The arms of the definition: last || !matches!(x, Step::Again) would say it the other way about, no plainer.
#[tactic(auto, unfolding(format::specs::Form::stands_right))]
fn stands_right(last: bool, x: Step) -> bool
    ensures { result ≡ stands_right last x }
{
    match x {
        Step::Again => last,
        _ => true,
    }
}

#[tactic(auto, unfolding(format::specs::Form::step_good))]
fn step_good(tasks: u8, objects: u8, last: bool, a: u8, b: u16, x: Step) -> bool
    ensures { result ≡ step_good tasks objects last a b x }
{
    operands_good(a, b, x) && names_listed(tasks, objects, x) && stands_right(last, x)
}

// 16, of the step x at position k.
#[tactic(auto, unfolding(format::specs::Steps::a_at, format::specs::Steps::b_at))]
fn good_at(limits: &Limits, part: &[u8], k: usize, x: Step) -> bool
    requires { k < step_count part.now }
    ensures { result ≡ step_good limits.now.tasks limits.now.objects (eqb (suc k) (step_count part.now)) (a_at part.now k)
        (b_at part.now k) x }
{
    let at = File::STEP * k;
    let last = k + 1 == part.len() / File::STEP;
    step_good(
        limits.tasks,
        limits.objects,
        last,
        part[at + 1],
        words::word_in(part, at + 2),
        x,
    )
}

// What a step of task t sets its own base to, or 0, which raises none.
// 0 and no Option: `own_set` says 0, and a max with it changes nothing.
#[tactic(auto, unfolding(format::specs::Check::own_set))]
fn own_set(t: u8, x: Step) -> Priority
    ensures { result.0 ≡ own_set t x }
{
    match x {
        Step::Set(u, p) if u == t => p,
        _ => Priority(0),
    }
}

// 16, of one script; where it passes, the highest of the task's base and its own Set values.
pub fn steps_form(limits: &Limits, t: u8, base: Priority, part: &[u8]) -> Result<Priority, Fault>
    ensures { result ≡ found_by (steps_form limits.now.tasks limits.now.objects t part.now)
        (record { 0 = top_of t base.0 (steps_of part.now) }) }
{
    let mut top = base;
    for k in 0..part.len() / File::STEP {
        if limits.within(part, k) {
            continue;
        }
        let x = steps::step_at(part, k);
        if !good_at(limits, part, k, x) {
            return Err(Fault::BadStep(t, k));
        }
        top = top.max(own_set(t, x));
    }
    Ok(top)
}
