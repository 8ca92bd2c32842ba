// A run between two events, and one event of it.
ghost use Rattle.std.specs.Prelude.{◌≡◌};
ghost use Rattle.format.specs.Roster.{roster_of};
ghost use Rattle.format.specs.Check.{Passes};
ghost use Rattle.turns.specs.Run.{started, Happened};
ghost use Rattle.trace.specs.declared.Input.TheVariants.{Step as Stepped};

use crate::scripts::Scripts;
use crate::steps::{perform, position_after, set_base};
use fields::{object_count, read_bases, read_ceilings, task_count};
use fresh::fresh;
use memory::Memory;
use memory::rulings::Ruling;
use rules::Roster;
use std::marker::Model;
use trace::Input;

// A contract sees the roster and the configuration that its events have come to.
// Positions beside the parts of `scripts`: those change, and these are read once and lent.
#[derive(Drop)]
pub struct Machine<'a> {
    scripts: &'a Scripts<'a>,
    memory: &'a mut Memory,
    positions: &'a mut [u16; Roster::TASKS],
}

impl<'a> Model for Machine<'a> {
    ghost use Rattle.turns.specs.Run.{Run};

    ghost Value = { Run };

    ghost use Rattle.turns.specs.MachineView.{run_in, Runs};

    ghost view = { run_in };

    ghost invariant = { Runs };
}

impl<'a> Machine<'a> {
    // A fresh start, with every script at its start. All parts are lent, since what is handed back is copied.
    pub fn new(
        scripts: &'a Scripts<'a>,
        memory: &'a mut Memory,
        positions: &'a mut [u16; Roster::TASKS],
    ) -> Self
        requires { Passes scripts.now }
        ensures { result ≡ started (roster_of scripts.now) }
    {
        let roster = scripts.roster();
        let mut bases = [0; Roster::TASKS];
        let mut ceilings = [0; Roster::OBJECTS];
        read_bases(roster, &mut bases);
        read_ceilings(roster, &mut ceilings);
        let tasks = task_count(roster) as usize;
        let objects = object_count(roster) as usize;
        fresh(memory, &bases[..tasks], &ceilings[..objects]);
        *positions = [0; Roster::TASKS];
        Machine {
            scripts,
            memory,
            positions,
        }
    }

    pub fn running(&self) -> Option<u8>
        ensures { result ≡ self.entry.now.config.model.running }
    {
        self.memory.running()
    }

    // The running task takes its next step. Its position moves on before, so that nothing is kept meanwhile, and back where it is refused.
    #[tactic(auto, using(crate::proofs::RunLaws::runner_laws), unfolding(trace::specs::Config::happen, trace::specs::Config::step_by))]
    fn step(&mut self) -> Ruling
        ensures { Happened self.old Stepped self.new result }
    {
        let Some(t) = self.memory.running() else {
            return Ruling::NobodyRuns;
        };
        let k = self.positions[t as usize];
        let x = self.scripts.step(t, k);
        self.positions[t as usize] = position_after(k, x);
        let ruling = perform(self.memory, x);
        // By the number, one comparison on each step: `answer` would match the twelve rulings to make a Result that is let go.
        if ruling.number() != 0 {
            self.positions[t as usize] = k;
        }
        ruling
    }

    // One event: a match, since the operands differ from case to case.
    #[tactic(auto, unfolding(trace::specs::Config::happen, trace::specs::Config::outside))]
    pub fn happen(&mut self, x: Input) -> Ruling
        ensures { Happened self.old x self.new result }
    {
        match x {
            Input::Clock(r) => events::clock(self.memory, r),
            Input::Release(t) => events::release(self.memory, t as u64),
            Input::Step => self.step(),
            Input::Set(t, value) => set_base(self.memory, t, value),
        }
    }
}
