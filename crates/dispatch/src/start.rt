// The fresh start.
ghost use Rattle.std.specs.Prelude.{◌≡◌};
ghost use Rattle.rules.specs.Fresh.{fresh, fresh_model, refused_fresh, Startable};
ghost use Rattle.dispatch.specs.State.{encode};
ghost use Rattle.dispatch.specs.Methods.{fresh_of};

use crate::store::store;
use crate::{Started, State};
use memory::Memory;
use ranges::all_in_range;
use rules::{Answer, Refusal, Roster};

// The fresh state of these bases and ceilings.
// Bases and ceilings apart, here and below: State::fresh is lent them so, and any two lists get an answer.
fn started(bases: &[u8], ceilings: &[u8]) -> State
    requires { Startable (record { bases = bases.now; ceilings = ceilings.now }) }
    ensures { result ≡ encode (fresh_model (record { bases = bases.now; ceilings = ceilings.now })) }
{
    let mut memory = Memory::new();
    fresh::fresh(&mut memory, bases, ceilings);
    store(&memory)
}

// The one beside a refusal: a single task, base 1, and no objects.
fn single() -> State
    ensures { result ≡ encode refused_fresh }
{
    started(&[1], &[])
}

// The tests, in the order of their numbers.
fn tested(bases: &[u8], ceilings: &[u8]) -> Answer
    ensures { result ≡ (fresh (record { bases = bases.now; ceilings = ceilings.now })).answer }
{
    if !Roster::counts_good(bases.len(), ceilings.len()) {
        return Err(Refusal::BadCounts);
    }
    if all_in_range(bases) && all_in_range(ceilings) {
        Ok(())
    } else {
        Err(Refusal::BadBases)
    }
}

impl State {
    pub fn fresh(bases: &[u8], ceilings: &[u8]) -> Started
        ensures { result ≡ fresh_of (record { bases = bases.now; ceilings = ceilings.now }) }
    {
        let answer = tested(bases, ceilings);
        let state = match answer {
            Ok(()) => started(bases, ceilings),
            Err(_) => single(),
        };
        Started { answer, state }
    }
}
