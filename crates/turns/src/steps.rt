// What a step of a script does to the memory, and where it leaves its task's position; and a Set from outside.
ghost use Rattle.std.specs.Prelude.{◌≡◌, ◌<◌, true};
ghost use Rattle.rules.specs.Events.{set_base};
ghost use Rattle.rules.specs.Sound.{sound};
ghost use Rattle.memory.specs.Memory.{Did};
ghost use Rattle.trace.specs.Config.{perform, position_after};

use format::Step;
use memory::Memory;
use memory::rulings::Ruling;
use rules::Priority;

// The event of a step's name: a match, since the operands differ from case to case. rt fmt keeps the attribute on one line.
#[tactic(auto, unfolding(trace::specs::Config::perform, trace::specs::Config::answer_to, trace::specs::Config::event_of, rules::specs::Events::apply))]
pub fn perform(memory: &mut Memory, x: Step) -> Ruling
    requires { sound memory.old ≡ true }
    ensures did { Did memory.new result (perform memory.old x) }
    ensures kept { sound memory.new ≡ true }
{
    match x {
        Step::Enter(o) => events::enter(memory, o as u64),
        Step::Leave(o) => events::leave(memory, o as u64),
        Step::Delay(d) => events::delay(memory, d),
        Step::Work => events::work(memory),
        Step::Suspend => events::suspend(memory),
        Step::Release(t) => events::release(memory, t as u64),
        Step::Set(t, p) => events::set(memory, t as u64, p),
        Step::Again => Ruling::Unchanged,
        Step::Finish => events::finish(memory),
    }
}

// No conversion: a step leaves a position in one of three ways, and 0 is where its script starts.
#[tactic(auto, unfolding(trace::specs::Config::position_after))]
pub fn position_after(k: u16, x: Step) -> u16
    requires { position_after k x < 65536 }
    ensures { result ≡ position_after k x }
{
    match x {
        Step::Again => 0,
        Step::Finish => k,
        _ => k + 1,
    }
}

// A value that is no priority gets the rule's answer, which is the same for all of them.
pub fn set_base(memory: &mut Memory, t: u8, value: u64) -> Ruling
    requires { sound memory.old ≡ true }
    ensures did { Did memory.new result (set_base memory.old t value) }
    ensures kept { sound memory.new ≡ true }
{
    let p = Priority::checked(value).unwrap_or(Priority(0));
    events::set(memory, t as u64, p)
}
