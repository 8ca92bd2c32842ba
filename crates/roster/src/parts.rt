// The part of a lent roster that is the script of a task.
ghost use Rattle.std.specs.Prelude.{◌≡◌, ◌+◌, ◌≤◌, length};
ghost use Rattle.format.specs.Limits.{task_row_size};
ghost use Rattle.format.specs.Format.{task_row, start_at, length_at, part_at};

// The bytes of a task's script; its row and the script are there.
#[tactic(auto, unfolding(format::specs::Format::part_at, format::specs::Format::start_at, format::specs::Format::length_at))]
pub fn script_part(s: &[u8], t: u8) -> &[u8]
    requires task_row_size_in_bounds { task_row s.now t + task_row_size ≤ length s.now }
    requires t_in_bounds { start_at s.now t + length_at s.now t ≤ length s.now }
    ensures { result.now ≡ part_at s.now t }
{
    let row = fields::task_row(s, t) as usize;
    // Not by start_at and length_at, which test whether the row is there.
    let start = words::word_in(s, row + 2) as usize;
    let size = words::word_in(s, row + 4) as usize;
    &s[start..start + size]
}
