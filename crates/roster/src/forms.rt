// The form of a roster: answers 11 to 16.
ghost use Rattle.std.specs.Prelude.{◌≡◌, true, ◌≤◌, length, Ok, Err, MatchResult};
ghost use Rattle.rules.specs.Limits.{task_limit};
ghost use Rattle.rules.specs.Lists.{below};
ghost use Rattle.format.specs.Format.{task_count, object_count};
ghost use Rattle.format.specs.Form.{length_good, mark_good, counts_kept, tables_good, laid_from, scripts_laid};
ghost use Rattle.format.specs.Form.{layout_good, task_row_good, object_row_good, values_good, scripts_form, form_of};
ghost use Rattle.roster.specs.Tops.{Topped};

use crate::parts::script_part;
use format::{Fault, File, Verdict};
use rules::{Priority, Roster};
use step_form::{Limits, steps_form};

// 11
#[tactic(auto, unfolding(format::specs::Form::length_good))]
fn length_good(s: &[u8]) -> bool
    ensures { result ≡ length_good s.now }
{
    Roster::size_good(s.len())
}

// 12
#[tactic(auto, unfolding(format::specs::Form::mark_good, format::specs::Format::trailer))]
fn mark_good(s: &[u8]) -> bool
    ensures { result ≡ mark_good s.now }
{
    let at = fields::trailer_of(s);
    words::byte_at(s, at) == File::FIRST_MARK && words::byte_at(s, at + 1) == File::SECOND_MARK
}

// 13
#[tactic(auto, unfolding(format::specs::Form::counts_kept))]
fn counts_good(s: &[u8]) -> bool
    ensures { result ≡ counts_kept s.now }
{
    Roster::counts_good(
        fields::task_count(s) as usize,
        fields::object_count(s) as usize,
    )
}

// 14, of the tables: each ends where the next part starts.
#[tactic(auto, unfolding(format::specs::Form::tables_good))]
fn tables_good(s: &[u8]) -> bool
    ensures { result ≡ tables_good s.now }
{
    fields::task_row(s, fields::task_count(s)) == fields::object_table(s) as u32
        && fields::object_row(s, fields::object_count(s)) as usize == fields::trailer_of(s)
}

#[tactic(auto, unfolding(format::specs::Form::laid_from))]
fn laid_from(s: &[u8], start: u32, t: u8) -> bool
    ensures { result ≡ laid_from s.now start t }
{
    fields::start_at(s, t) as u32 == start && fields::length_at(s, t) as usize % File::STEP == 0
}

// 14, of the scripts.
#[tactic(auto, unfolding(format::specs::Form::scripts_laid))]
fn scripts_laid(s: &[u8]) -> bool
    ensures { result ≡ scripts_laid s.now }
{
    let mut end: u32 = 0;
    for t in 0..fields::task_count(s) {
        if !laid_from(s, end, t) {
            return false;
        }
        end += fields::length_at(s, t) as u32;
    }
    end == fields::task_table(s) as u32
}

// 14
#[tactic(auto, unfolding(format::specs::Form::layout_good))]
fn layout_good(s: &[u8]) -> bool
    ensures { result ≡ layout_good s.now }
{
    tables_good(s) && scripts_laid(s)
}

#[tactic(auto, unfolding(format::specs::Form::task_row_good))]
fn task_row_good(s: &[u8], t: u8) -> bool
    ensures { result ≡ task_row_good s.now t }
{
    fields::base_at(s, t).in_range() && words::byte_at(s, fields::task_row(s, t) as usize + 1) == 0
}

// Beside the test of a task's row, since the two read other cells: only the range is common, and that is one call.
#[tactic(auto, unfolding(format::specs::Form::object_row_good, format::specs::Format::ceiling_at))]
fn object_row_good(s: &[u8], o: u8) -> bool
    ensures { result ≡ object_row_good s.now o }
{
    let row = fields::object_row(s, o) as usize;
    Priority(words::byte_at(s, row)).in_range() && words::byte_at(s, row + 1) == 0
}

// 15, of the task table.
// Two tests of a table, a line each: one function of both would be handed the count and the test, which is all of it.
fn task_rows_good(s: &[u8]) -> bool
    ensures { result ≡ below (task_count s.now) (task_row_good s.now) }
{
    (0..fields::task_count(s)).all(|t| task_row_good(s, t))
}

// 15, of the object table.
fn object_rows_good(s: &[u8]) -> bool
    ensures { result ≡ below (object_count s.now) (object_row_good s.now) }
{
    (0..fields::object_count(s)).all(|o| object_row_good(s, o))
}

// 15
#[tactic(auto, unfolding(format::specs::Form::values_good))]
fn values_good(s: &[u8]) -> bool
    ensures { result ≡ values_good s.now }
{
    task_rows_good(s) && object_rows_good(s)
}

// The highest of each task's base and its own Set values, which the check asks for again.
// A cell for every task that there may be: there is no heap; `Topped` says what the first ones are.
pub type Tops = [Priority; Roster::TASKS];

// 16, in task and step order; where all pass, the tops are left in `tops`, which is lent because a result would be copied.
// `Topped` is a clause and no type: a fact of a roster and its tops, told by two and asked by the two that read them.
fn scripts_form(s: &[u8], tops: &mut Tops) -> Verdict
    requires s_value { layout_good s.now ≡ true }
    requires s_in_bounds { task_count s.now ≤ task_limit }
    ensures value { result ≡ scripts_form s.now }
    ensures topped { result ≡ Ok tt → Topped s.now tops.new }
{
    let limits = Limits::new(fields::task_count(s), fields::object_count(s));
    for t in 0..fields::task_count(s) {
        tops[t as usize] = steps_form(&limits, t, fields::base_at(s, t), script_part(s, t))?;
    }
    Ok(())
}

// 11 to 16; where all pass, the tops of the tasks too.
#[tactic(auto, using(crate::proofs::TopLaws::tops_fit), unfolding(format::specs::Form::form_of))]
pub fn form_and_tops(s: &[u8], tops: &mut Tops) -> Verdict
    ensures value { result ≡ form_of s.now }
    ensures topped { result ≡ Ok tt → Topped s.now tops.new }
{
    if !length_good(s) {
        return Err(Fault::BadLength);
    }
    if !mark_good(s) {
        return Err(Fault::BadMark);
    }
    if !counts_good(s) {
        return Err(Fault::BadCounts);
    }
    if !layout_good(s) {
        return Err(Fault::BadLayout);
    }
    if !values_good(s) {
        return Err(Fault::BadValues);
    }
    scripts_form(s, tops)
}

// The form of a roster: 11 to 16.
pub fn form(s: &[u8]) -> Verdict
    ensures { result ≡ form_of s.now }
{
    form_and_tops(s, &mut [Priority(0); Roster::TASKS])
}
