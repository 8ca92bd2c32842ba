// Limits of the steps' operands, by code: most steps have their form if they are within theirs.
ghost use Rattle.std.specs.Prelude.{◌≡◌, ◌<◌};
ghost use Rattle.format.specs.Steps.{code_at, a_at, b_at, step_count};
ghost use Rattle.step_form.specs.Limited.{Limited, is_within};

use format::{File, Step};

// One limit for every byte that a code may be.
const CODES: usize = 256;

// The limits in a roster of so many tasks and objects.
#[derive(Drop)]
pub struct Limits {
    pub tasks: u8,
    pub objects: u8,
    table: [u8; CODES],
    ghost limited: { Limited tasks objects table },
}

impl Limits {
    pub fn new(tasks: u8, objects: u8) -> Limits
        ensures tasks_value { result.tasks ≡ tasks }
        ensures objects_value { result.objects ≡ objects }
    {
        let mut table = [0u8; CODES];
        table[Step::RELEASE as usize] = tasks;
        table[Step::SUSPEND as usize] = 1;
        table[Step::WORK as usize] = 1;
        table[Step::LEAVE as usize] = objects;
        table[Step::ENTER as usize] = objects;
        Limits {
            tasks,
            objects,
            table,
        }
    }

    // Whether the step at position k needs no other test: its second operand is 0 and its first is below the limit.
    #[tactic(auto, unfolding(format::specs::Steps::code_at, format::specs::Steps::a_at, format::specs::Steps::b_at))]
    pub fn within(&self, part: &[u8], k: usize) -> bool
        requires { k < step_count part.now }
        ensures { result ≡ is_within self.now.table (code_at part.now k) (a_at part.now k) (b_at part.now k) }
    {
        let at = File::STEP * k;
        words::word_in(part, at + 2) == 0 && part[at + 1] < self.table[part[at] as usize]
    }
}
