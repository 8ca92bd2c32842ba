// Writing a roster from bases, ceilings, lengths in steps and the steps' bytes.
ghost use Rattle.std.specs.Prelude.{◌≡◌, length};
ghost use Rattle.encoding.specs.File.{parts};
ghost use Rattle.encoding.specs.Answers.{write_answer_of, write_buffer_of, written_of};
ghost use Rattle.packed.specs.Packed.{packed_write};

use packed::pack;
use writer::Parts;

// Writes the file at the front of the buffer, or nothing, and answers: number, 256 times the task, 65536 times the step.
// The parts come one by one, since the C interface has them so; inside they are one Parts.
#[unsafe(no_mangle)]
pub extern "C" fn dispatch_write(
    bases: &[u8],
    ceilings: &[u8],
    lengths: &[u16],
    steps: &[u8],
    buffer: &mut [u8],
) -> u64
    ensures value { result ≡
        packed_write (write_answer_of (parts bases.now ceilings.now lengths.now steps.now)
        (length buffer.old)) }
    ensures buffer_after { buffer.new ≡
        write_buffer_of (parts bases.now ceilings.now lengths.now steps.now)
        buffer.old }
{
    let parts = Parts {
        bases,
        ceilings,
        lengths,
        steps,
    };
    pack(parts.write(buffer))
}

// What dispatch_write would answer with a buffer of `room` bytes.
#[unsafe(no_mangle)]
pub extern "C" fn dispatch_write_answer(
    bases: &[u8],
    ceilings: &[u8],
    lengths: &[u16],
    steps: &[u8],
    room: u64,
) -> u64
    ensures { result ≡
        packed_write (write_answer_of (parts bases.now ceilings.now lengths.now steps.now)
        room) }
{
    let parts = Parts {
        bases,
        ceilings,
        lengths,
        steps,
    };
    pack(parts.answer(room as usize))
}

// Writes as dispatch_write does, and tells how long the written front part of the buffer is; 0 on a refusal.
#[unsafe(no_mangle)]
pub extern "C" fn dispatch_written(
    bases: &[u8],
    ceilings: &[u8],
    lengths: &[u16],
    steps: &[u8],
    buffer: &mut [u8],
) -> u64
    ensures value { result ≡
        length (written_of (parts bases.now ceilings.now lengths.now steps.now)
        (length buffer.old)) }
    ensures buffer_after { buffer.new ≡
        write_buffer_of (parts bases.now ceilings.now lengths.now steps.now)
        buffer.old }
{
    let parts = Parts {
        bases,
        ceilings,
        lengths,
        steps,
    };
    let n = parts.length(buffer.len());
    let _ = parts.write(buffer);
    n as u64
}
