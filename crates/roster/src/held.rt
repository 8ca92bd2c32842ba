// What a script holds: a list of objects, outermost first, which is what clauses see of it.
ghost use Rattle.std.specs.Prelude.{◌≡◌, true, List, [], ◌∷◌, ◌++◌, ℕ, ◌-◌, ◌≤◌, ◌<◌, length, take};
ghost use Rattle.rules.specs.Limits.{object_limit};
ghost use Rattle.rules.specs.Model.{highest_of};
ghost use Rattle.rules.specs.Sound.{rising};
ghost use Rattle.format.specs.Check.{something, is_held, is_innermost, held_after};

use format::Step;
use rules::{Priority, Roster};
use std::marker::Model;

// Not memory::Row: that and its laws would have to move into rules, below both, for the three short methods that are alike.
#[derive(Drop)]
pub struct Held {
    depth: usize,
    cells: [u8; Roster::OBJECTS],
}

impl Model for Held {
    ghost Value = { List ℕ };

    ghost view = { λ h. take h.depth h.cells };

    ghost invariant = { λ h. h.depth ≤ object_limit };
}

impl Held {
    pub fn new() -> Held
        ensures { result ≡ [] }
    {
        Held {
            depth: 0,
            cells: [0; Roster::OBJECTS],
        }
    }

    fn objects(&self) -> &[u8]
        ensures { result.now ≡ self.now }
    {
        &self.cells[..self.depth]
    }

    pub fn something(&self) -> bool
        ensures { result ≡ something self.now }
    {
        !self.objects().is_empty()
    }

    pub fn contains(&self, o: u8) -> bool
        ensures { result ≡ is_held self.now o }
    {
        self.objects().iter().any(|&held| held == o)
    }

    pub fn is_innermost(&self, o: u8) -> bool
        ensures { result ≡ is_innermost self.now o }
    {
        self.objects().last() == Some(&o)
    }

    // The highest of a priority and the ceilings of what is held: as they do not fall inwards, the innermost one's.
    #[tactic(auto, using(crate::proofs::StackLaws::highest_laws))]
    pub fn highest(&self, ceilings: &[u8], top: Priority) -> Priority
        requires { rising ceilings.now top.0 self.now ≡ true }
        ensures { result.0 ≡ highest_of ceilings.now top.0 self.now }
    {
        match self.objects().last() {
            Some(&o) => Priority(words::byte_at(ceilings, o as usize)),
            None => top,
        }
    }

    fn push(&mut self, o: u8)
        requires { length self.old < object_limit }
        ensures { self.new ≡ self.old ++ o ∷ [] }
    {
        self.cells[self.depth] = o;
        self.depth += 1;
    }

    fn pop(&mut self)
        ensures { self.new ≡ take (length self.old - 1) self.old }
    {
        self.depth = self.depth.saturating_sub(1);
    }

    // What a step leaves held.
    #[tactic(auto, unfolding(format::specs::Check::held_after))]
    pub fn after(&mut self, x: Step)
        requires { length (held_after self.old x) ≤ object_limit }
        ensures { self.new ≡ held_after self.old x }
    {
        match x {
            Step::Enter(o) => self.push(o),
            Step::Leave(_) => self.pop(),
            _ => {}
        }
    }
}
