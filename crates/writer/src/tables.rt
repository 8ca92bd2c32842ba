// The writers of the scripts, the two tables and the trailer: each is lent the part of the buffer that begins where it starts.
ghost use Rattle.std.specs.Prelude.{◌≡◌, [], ◌∷◌, ◌++◌, ◌*◌, ◌≤◌, ◌<◌, length};
ghost use Rattle.rules.specs.Limits.{task_limit, object_limit};
ghost use Rattle.words.specs.Words.{word, over_front};
ghost use Rattle.format.specs.Limits.{task_row_size, object_row_size, trailer_size};
ghost use Rattle.encoding.specs.File.{pieces, bytes_before, task_row_bytes, object_row_bytes, trailer_bytes};

use format::File;

// The scripts, one after the other as they were lent.
pub fn write_scripts(steps: &[u8], out: &mut [u8])
    requires { length steps.now ≤ length out.old }
    ensures { out.new ≡ over_front steps.now out.old }
{
    out[..steps.len()].copy_from_slice(steps);
}

// One task row.
fn write_task(base: u8, start: u16, size: u16, row: &mut [u8])
    requires { task_row_size ≤ length row.old }
    ensures { row.new ≡ over_front (base ∷ 0 ∷ (word start ++ word size)) row.old }
{
    row[0] = base;
    row[1] = 0;
    row[2..4].copy_from_slice(&start.to_le_bytes());
    row[4..6].copy_from_slice(&size.to_le_bytes());
}

// The task table.
// Of the two lists that a row is made of, as task_row_bytes has them: the tables know nothing of the parts around them.
pub fn write_tasks(bases: &[u8], lengths: &[u16], table: &mut [u8])
    requires bases_len_bound { length bases.now ≤ task_limit }
    requires lengths_len { length lengths.now ≡ length bases.now }
    requires bases_bound { bytes_before lengths.now (length bases.now) < 65536 }
    requires bases_in_bounds { task_row_size * length bases.now ≤ length table.old }
    ensures { table.new ≡
        over_front (pieces (length bases.now) (task_row_bytes bases.now lengths.now)) table.old }
{
    let mut start: usize = 0;
    for (t, &base) in bases.iter().enumerate() {
        let at = File::TASK_ROW as usize * t;
        let size = File::STEP * lengths[t] as usize;
        write_task(base, start as u16, size as u16, &mut table[at..]);
        start += size;
    }
}

// One object row.
fn write_object(ceiling: u8, row: &mut [u8])
    requires { object_row_size ≤ length row.old }
    ensures { row.new ≡ over_front (ceiling ∷ 0 ∷ []) row.old }
{
    row[0] = ceiling;
    row[1] = 0;
}

// The object table.
pub fn write_objects(ceilings: &[u8], table: &mut [u8])
    requires ceilings_len_bound { length ceilings.now ≤ object_limit }
    requires ceilings_in_bounds { object_row_size * length ceilings.now ≤ length table.old }
    ensures { table.new ≡
        over_front (pieces (length ceilings.now) (object_row_bytes ceilings.now)) table.old }
{
    for (o, &ceiling) in ceilings.iter().enumerate() {
        write_object(ceiling, &mut table[File::OBJECT_ROW as usize * o..]);
    }
}

// The trailer of so many tasks and objects, with where their tables start.
#[tactic(auto, unfolding(encoding::specs::File::trailer_bytes))]
pub fn write_trailer(tasks: u8, objects: u8, object_start: u16, task_start: u16, end: &mut [u8])
    requires { trailer_size ≤ length end.old }
    ensures { end.new ≡ over_front (trailer_bytes tasks objects object_start task_start) end.old }
{
    end[0] = File::FIRST_MARK;
    end[1] = File::SECOND_MARK;
    end[2] = tasks;
    end[3] = objects;
    end[4..6].copy_from_slice(&object_start.to_le_bytes());
    end[6..8].copy_from_slice(&task_start.to_le_bytes());
}
