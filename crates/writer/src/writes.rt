// The two calls of the writer: one writes and answers, one hands back the written part.
ghost use Rattle.std.specs.Prelude.{◌≡◌, length, Ok};
ghost use Rattle.words.specs.Words.{over_front};
ghost use Rattle.encoding.specs.File.{file_of};
ghost use Rattle.encoding.specs.Answers.{write_answer_of, write_buffer_of, written_of};
ghost use Rattle.writer.specs.Lent.{lent};

use crate::parts::Parts;
use crate::tables;
use encoding::WriteAnswer;
use format::File;

impl Parts<'_> {
    // The file, each part from where it starts.
    fn write_file(&self, out: &mut [u8])
        requires { write_answer_of (lent self.now) (length out.old) ≡ Ok tt }
        ensures { out.new ≡ over_front (file_of (lent self.now)) out.old }
    {
        let n = self.bases.len();
        let m = self.ceilings.len();
        let table = self.steps.len();
        let objects = table + File::TASK_ROW as usize * n;
        let end = objects + File::OBJECT_ROW as usize * m;
        tables::write_scripts(self.steps, out);
        tables::write_tasks(self.bases, self.lengths, &mut out[table..]);
        tables::write_objects(self.ceilings, &mut out[objects..]);
        tables::write_trailer(
            n as u8,
            m as u8,
            objects as u16,
            table as u16,
            &mut out[end..],
        );
    }

    // Writes the file at the front of the buffer, or nothing, and answers.
    #[tactic(auto, unfolding(encoding::specs::Answers::write_buffer_of))]
    pub fn write(&self, out: &mut [u8]) -> WriteAnswer
        ensures value { result ≡ write_answer_of (lent self.now) (length out.old) }
        ensures out_after { out.new ≡ write_buffer_of (lent self.now) out.old }
    {
        self.answer(out.len())?;
        self.write_file(out);
        Ok(())
    }

    // Writes, and hands back exactly the written file, the front part of the buffer; empty on a refusal, whose number `answer` tells.
    #[tactic(auto, unfolding(encoding::specs::Answers::written_of))]
    pub fn written<'b>(&self, out: &'b mut [u8]) -> &'b mut [u8]
        ensures { result.now ≡ written_of (lent self.now) (length out.old) }
    {
        match self.written_size(out.len()) {
            Ok(size) => {
                self.write_file(out);
                &mut out[..size]
            }
            Err(_) => &mut out[..0],
        }
    }
}
