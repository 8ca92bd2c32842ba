// What a roster is written from, and what the writer answers to it: 13, 14, 15, 16, then 11, then 22.
ghost use Rattle.std.specs.Prelude.{◌≡◌, true, ◌*◌, ◌≤◌, length, Ok, Err, MatchResult};
ghost use Rattle.rules.specs.Limits.{task_limit, object_limit, largest_roster};
ghost use Rattle.rules.specs.Fresh.{setup_counted, setup_in_range};
ghost use Rattle.encoding.specs.File.{steps_before, file_of};
ghost use Rattle.encoding.specs.Answers.{lengths_add_up, lent_scripts_form, parts_form, file_form, write_answer_of, written_of};
ghost use Rattle.writer.specs.Lent.{lent};

use encoding::{WriteAnswer, WriteError};
use format::{Fault, File, Verdict};
use ranges::all_in_range;
use rules::{Priority, Roster};
use step_form::{Limits, steps_form};

// Bases, ceilings, how many steps each task has, and all the steps, 4 bytes each, task after task.
// Bases and lengths are two lists side by side, since C and Ada lend them so (dispatch_write); nothing is copied.
#[derive(Clone, Copy)]
pub struct Parts<'a> {
    pub bases: &'a [u8],
    pub ceilings: &'a [u8],
    pub lengths: &'a [u16],
    pub steps: &'a [u8],
}

// How many steps the lengths make.
// Of the one list that it adds up: as a method of Parts it would be lent three slices more than it reads.
fn total(lengths: &[u16]) -> usize
    requires { length lengths.now ≤ task_limit }
    ensures value { result ≡ steps_before lengths.now (length lengths.now) }
    ensures upper_bound { result ≤ 65535 * task_limit }
{
    let mut sum = 0;
    for &n in lengths {
        sum += n as usize;
    }
    sum
}

impl Parts<'_> {
    // 14
    // How many there may be is a clause, here and below: the fields are public, and lists of any length get an answer.
    #[tactic(auto, unfolding(encoding::specs::Answers::lengths_add_up))]
    fn lengths_good(&self) -> bool
        requires { length self.now.bases.now ≤ task_limit }
        ensures { result ≡ lengths_add_up (lent self.now) }
    {
        self.lengths.len() == self.bases.len()
            && File::STEP * total(self.lengths) == self.steps.len()
    }

    // 15
    fn values_good(&self) -> bool
        ensures { result ≡ setup_in_range (lent self.now).setup }
    {
        all_in_range(self.bases) && all_in_range(self.ceilings)
    }

    // 16, in task and step order: each script as the reader judges it.
    fn scripts_form(&self) -> Verdict
        requires counts { setup_counted (lent self.now).setup ≡ true }
        requires lengths { lengths_add_up (lent self.now) ≡ true }
        ensures { result ≡ lent_scripts_form (lent self.now) }
    {
        let limits = Limits::new(self.bases.len() as u8, self.ceilings.len() as u8);
        let mut start: usize = 0;
        for (t, &base) in self.bases.iter().enumerate() {
            let end = start + File::STEP * self.lengths[t] as usize;
            steps_form(&limits, t as u8, Priority(base), &self.steps[start..end])?;
            start = end;
        }
        Ok(())
    }

    // 13, 14, 15 and 16.
    #[tactic(auto, using(crate::proofs::PartLaws::counted), unfolding(encoding::specs::Answers::parts_form))]
    fn parts_form(&self) -> Verdict
        ensures { result ≡ parts_form (lent self.now) }
    {
        if !Roster::counts_good(self.bases.len(), self.ceilings.len()) {
            return Err(Fault::BadCounts);
        }
        if !self.lengths_good() {
            return Err(Fault::BadLayout);
        }
        if !self.values_good() {
            return Err(Fault::BadValues);
        }
        self.scripts_form()
    }

    // The length of the file.
    #[tactic(auto, using(crate::proofs::PartLaws::size_laws))]
    fn size(&self) -> usize
        requires tasks { length self.now.bases.now ≤ task_limit }
        requires objects { length self.now.ceilings.now ≤ object_limit }
        requires steps { length self.now.steps.now ≤ largest_roster }
        ensures { result ≡ length (file_of (lent self.now)) }
    {
        self.steps.len()
            + File::TASK_ROW as usize * self.bases.len()
            + File::OBJECT_ROW as usize * self.ceilings.len()
            + File::TRAILER
    }

    // How long the file is: 13, 14, 15, 16, then 11.
    #[tactic(auto, unfolding(encoding::specs::Answers::file_form))]
    fn file_size(&self) -> Result<usize, Fault>
        ensures { MatchResult result (λ n. (file_form (lent self.now) ≡ Ok tt) × (n ≡ length (file_of (lent self.now))))
            (λ e. file_form (lent self.now) ≡ Err e) }
    {
        self.parts_form()?;
        // So many steps alone are too many, and the sum of the size might not fit.
        if self.steps.len() > Roster::LARGEST {
            return Err(Fault::BadLength);
        }
        let size = self.size();
        if size > Roster::LARGEST {
            return Err(Fault::BadLength);
        }
        Ok(size)
    }

    // How many bytes are written into a buffer of `room` bytes: 13, 14, 15, 16, then 11, then 22.
    #[tactic(auto, unfolding(encoding::specs::Answers::write_answer_of))]
    pub fn written_size(&self, room: usize) -> Result<usize, WriteError>
        ensures { MatchResult result (λ n. (write_answer_of (lent self.now) room ≡ Ok tt) × (n ≡ length (file_of (lent self.now))))
            (λ e. write_answer_of (lent self.now) room ≡ Err e) }
    {
        let size = self.file_size()?;
        if room < size {
            return Err(WriteError::ShortBuffer);
        }
        Ok(size)
    }

    // The same without the number.
    pub fn answer(&self, room: usize) -> WriteAnswer
        ensures { result ≡ write_answer_of (lent self.now) room }
    {
        self.written_size(room)?;
        Ok(())
    }

    // The same number; 0 on a refusal.
    // 0 and no Option: it is the length of `written_of`, empty on a refusal, and dispatch_written hands it to C.
    #[tactic(auto, unfolding(encoding::specs::Answers::written_of))]
    pub fn length(&self, room: usize) -> usize
        ensures { result ≡ length (written_of (lent self.now) room) }
    {
        self.written_size(room).unwrap_or(0)
    }
}
