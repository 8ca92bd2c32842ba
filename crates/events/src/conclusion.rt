// How an accepted event ends: one dispatch, and the report of who had the processor before and has it after.
ghost use Rattle.std.specs.Prelude.{◌≡◌, Ok};
ghost use Rattle.rules.specs.Moved.{report_by, accepted};
ghost use Rattle.memory.specs.Rulings.{answer_in, report_in};
ghost use Rattle.memory.specs.Memory.{Did};
ghost use Rattle.moves.specs.Room.{Dispatches};

use memory::Memory;
use memory::rulings::Ruling;

// Accepted, with the report by who ran before the event, when its dispatch begins, and after it.
#[tactic(auto, unfolding(rules::specs::Moved::report_by, rules::specs::Moved::is_nobody, rules::specs::Moved::same_runner))]
fn accepted_by(before: Option<u8>, pending: Option<u8>, after: Option<u8>) -> Ruling
    ensures answer { answer_in result ≡ Ok tt }
    ensures report { report_in result ≡ report_by before pending after }
{
    if before == after {
        Ruling::Unchanged
    } else if before.is_some() && before == pending {
        Ruling::Preempted
    } else {
        Ruling::Changed
    }
}

// `before` ran when the event came.
#[tactic(auto, unfolding(rules::specs::Moved::accepted))]
pub fn conclude(memory: &mut Memory, before: Option<u8>) -> Ruling
    requires { Dispatches memory.old }
    ensures { Did memory.new result (accepted before memory.old) }
{
    let pending = memory.running();
    moves::dispatch(memory);
    accepted_by(before, pending, memory.running())
}
