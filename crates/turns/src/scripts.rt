// The scripts of a run: where each task's starts and how long it is, read once from the roster's task table.
ghost use Rattle.std.specs.Prelude.{◌≡◌, ◌+◌, ◌≤◌, ◌<◌, length, take, drop};
ghost use Rattle.rules.specs.Limits.{task_limit};
ghost use Rattle.format.specs.Format.{task_count, start_at, length_at};
ghost use Rattle.format.specs.Roster.{roster_of};
ghost use Rattle.trace.specs.Config.{next_step};

use fields::steps;
use format::Step;
use rules::Roster;
use std::marker::Model;

// Where a script lies in its roster, in bytes.
#[derive(Clone, Copy)]
struct Part {
    start: u16,
    length: u16,
}

impl Part {
    fn of(self, roster: &[u8]) -> &[u8]
        requires { self.start + self.length ≤ length roster.now }
        ensures { result.now ≡ take self.length (drop self.start roster.now) }
    {
        let start = self.start as usize;
        &roster[start..start + self.length as usize]
    }
}

// A contract sees the bytes of the roster that the parts are of. Behind the last task's they are empty.
#[derive(Drop)]
pub struct Scripts<'a> {
    roster: &'a [u8],
    parts: [Part; Roster::TASKS],
}

impl<'a> Model for Scripts<'a> {
    ghost use Rattle.std.specs.Prelude.{List, ℕ};

    ghost Value = { List ℕ };

    ghost use Rattle.turns.specs.ScriptsView.{bytes_in, Found};

    ghost view = { bytes_in };

    ghost invariant = { Found };
}

impl<'a> Scripts<'a> {
    pub fn new(roster: &'a [u8]) -> Self
        requires { task_count roster.now ≤ task_limit }
        ensures { result ≡ roster.now }
    {
        let mut parts = [Part {
            start: 0,
            length: 0,
        }; Roster::TASKS];
        for t in 0..fields::task_count(roster) {
            parts[t as usize] = Part {
                start: fields::start_at(roster, t),
                length: fields::length_at(roster, t),
            };
        }
        Scripts { roster, parts }
    }

    pub fn roster(&self) -> &[u8]
        ensures { result.now ≡ self.now }
    {
        self.roster
    }

    // The step at position k of a task's script; Finish past the last.
    pub fn step(&self, t: u8, k: u16) -> Step
        requires listed { t < task_count self.now }
        requires within { start_at self.now t + length_at self.now t ≤ length self.now }
        ensures { result ≡ next_step (roster_of self.entry.now) t k }
    {
        steps::step_at(self.parts[t as usize].of(self.roster), k as usize)
    }
}
