// The head of a state: now, who runs, the counts and the word of marks.
ghost use Rattle.std.specs.Prelude.{◌≡◌};
ghost use Rattle.cells.specs.Decode.{runner_from, head_from};
ghost use Rattle.cells.specs.Encode.{head_row};

use crate::sizes::{HEAD_SIZE, MARKS_AT, NOBODY, OBJECT_COUNT_AT, RUNNING_AT, TASK_COUNT_AT};
use words::{long_in, number_in, put};

#[derive(Clone, Copy)]
pub struct Head {
    pub now: u64,
    pub running: Option<u8>,
    pub task_count: u8,
    pub object_count: u8,
    pub marks: u32,
}

// Who runs, from the byte of it.
pub fn runner_from(b: u8) -> Option<u8>
    ensures { result ≡ runner_from b }
{
    (b != NOBODY).then_some(b)
}

// `read` and `bytes` and no From: each is named in docs/PROMISES.md, and the names say which way a state's bytes go.
impl Head {
    #[tactic(auto, unfolding(crate::specs::Decode::head_from))]
    pub fn read(bytes: &[u8; HEAD_SIZE]) -> Self
        ensures { result ≡ head_from bytes.now }
    {
        Head {
            now: number_in(bytes, 0),
            running: runner_from(bytes[RUNNING_AT]),
            task_count: bytes[TASK_COUNT_AT],
            object_count: bytes[OBJECT_COUNT_AT],
            marks: long_in(bytes, MARKS_AT),
        }
    }

    pub fn bytes(self) -> [u8; HEAD_SIZE]
        ensures { result ≡ head_row self }
    {
        let mut bytes = [0; HEAD_SIZE];
        put(&mut bytes, 0, &self.now.to_le_bytes());
        bytes[RUNNING_AT] = self.running.unwrap_or(NOBODY);
        bytes[TASK_COUNT_AT] = self.task_count;
        bytes[OBJECT_COUNT_AT] = self.object_count;
        put(&mut bytes, MARKS_AT, &self.marks.to_le_bytes());
        bytes
    }
}
