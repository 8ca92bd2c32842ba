// Internal: pub only for our own crates. Any event on the engine's memory: the one match over the nine of crate events.
#![tactic(auto)]

ghost use Rattle.std.specs.Prelude.{◌≡◌, true};
ghost use Rattle.rules.specs.Events.{apply};
ghost use Rattle.rules.specs.Sound.{sound};
ghost use Rattle.memory.specs.Memory.{Did};

use memory::Memory;
use memory::rulings::Ruling;
use rules::Event;

#[tactic(auto, unfolding(rules::specs::Events::apply))]
pub fn apply(memory: &mut Memory, event: Event) -> Ruling
    requires { sound memory.old ≡ true }
    ensures did { Did memory.new result (apply memory.old event) }
    ensures kept { sound memory.new ≡ true }
{
    // One match, in the one place for events: their operands differ, so that a table of closures is no plainer.
    match event {
        Event::Enter(o) => events::enter(memory, o),
        Event::Leave(o) => events::leave(memory, o),
        Event::Delay(d) => events::delay(memory, d),
        Event::Suspend => events::suspend(memory),
        Event::Release(t) => events::release(memory, t),
        Event::Clock(r) => events::clock(memory, r),
        Event::Set(t, p) => events::set(memory, t, p),
        Event::Work => events::work(memory),
        Event::Finish => events::finish(memory),
    }
}
