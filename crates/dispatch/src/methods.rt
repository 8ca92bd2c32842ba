// The events, each a method that takes the state by value and hands it back beside the answer and the report, and the test of soundness.
ghost use Rattle.std.specs.Prelude.{◌≡◌, cond, is_ok};
ghost use Rattle.dispatch.specs.State.{encode};
ghost use Rattle.dispatch.specs.Sound.{sound_of};
ghost use Rattle.dispatch.specs.Methods.{unsound, applied_of, enter_of, leave_of, delay_of, suspend_of, release_of, clock_of};
ghost use Rattle.dispatch.specs.Methods.{set_of, work_of, finish_of, loaded_of};

use crate::load::load;
use crate::store::store;
use crate::{State, Stepped};
use memory::Memory;
use rules::{Answer, Event, Priority, Refusal, Report};

impl State {
    // The engine's memory of a sound state.
    fn loaded(&self) -> Option<Memory>
        ensures { result ≡ loaded_of self.entry.now }
    {
        if !self.fits() {
            return None;
        }
        let memory = load(self);
        if soundness::sound(&memory, self.marks) {
            Some(memory)
        } else {
            None
        }
    }

    pub fn sound(self) -> bool
        ensures { result ≡ sound_of self }
    {
        self.loaded().is_some()
    }

    fn unsound(self) -> Stepped
        ensures { result ≡ unsound self }
    {
        Stepped {
            answer: Err(Refusal::Unsound),
            report: Report::Unchanged,
            state: self,
        }
    }

    // Any event: the state is tested, loaded into the engine's memory and stored again, unless it is refused.
    pub fn applied(self, event: Event) -> Stepped
        ensures { result ≡ applied_of self event }
    {
        let Some(mut memory) = self.loaded() else {
            return self.unsound();
        };
        let ruling = engine::apply(&mut memory, event);
        let answer = ruling.answer();
        Stepped {
            answer,
            report: ruling.report(),
            state: self.after(answer, &memory),
        }
    }

    // The state beside an answer: that of the memory, or a refused event's as it came.
    fn after(self, answer: Answer, memory: &Memory) -> State
        ensures { result ≡ cond (is_ok answer) (encode memory.entry.now) self }
    {
        if answer.is_ok() { store(memory) } else { self }
    }

    pub fn enter(self, o: u64) -> Stepped
        ensures { result ≡ enter_of self o }
    {
        self.applied(Event::Enter(o))
    }

    pub fn leave(self, o: u64) -> Stepped
        ensures { result ≡ leave_of self o }
    {
        self.applied(Event::Leave(o))
    }

    pub fn delay(self, d: u16) -> Stepped
        ensures { result ≡ delay_of self d }
    {
        self.applied(Event::Delay(d))
    }

    pub fn suspend(self) -> Stepped
        ensures { result ≡ suspend_of self }
    {
        self.applied(Event::Suspend)
    }

    pub fn release(self, t: u64) -> Stepped
        ensures { result ≡ release_of self t }
    {
        self.applied(Event::Release(t))
    }

    pub fn clock(self, reading: u64) -> Stepped
        ensures { result ≡ clock_of self reading }
    {
        self.applied(Event::Clock(reading))
    }

    pub fn set(self, t: u64, p: Priority) -> Stepped
        ensures { result ≡ set_of self t p }
    {
        self.applied(Event::Set(t, p))
    }

    pub fn work(self) -> Stepped
        ensures { result ≡ work_of self }
    {
        self.applied(Event::Work)
    }

    pub fn finish(self) -> Stepped
        ensures { result ≡ finish_of self }
    {
        self.applied(Event::Finish)
    }
}
