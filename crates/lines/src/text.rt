// The lines that the program prints, made in a lent buffer.
ghost use Rattle.std.specs.Prelude.{◌≡◌, ◌+◌, ◌*◌, ◌/◌, ◌≤◌, leb, length};
ghost use Rattle.trace.specs.Limits.{reply_size};
ghost use Rattle.trace.specs.Answers.{error_number, error_task, error_position};
ghost use Rattle.lines.specs.Lines.{decimal, running_text, reply_line, reply_lines, has_place, place_text, refused_line};
ghost use Rattle.lines.specs.Lines.{passed_lines, lines_of, lines_buffer, lines_size, reply_room, other_room, room_for};
ghost use Rattle.lines.specs.Page.{HasRoom, Added};

use format::Placed;
use rules::Numbered;
use trace::sizes::{NOBODY, REPLY_SIZE};
use trace::{RunAnswer, RunError};

// The numbers whose place is printed.
// By number, as has_place of specs/ says it; the edit place_beside_15 is of this constant.
const FIRST_PLACED: u8 = 16;

const LAST_PLACED: u8 = 20;

// What a buffer has to have for each reply, and for all other lines.
pub const REPLY_ROOM: usize = 12;

pub const OTHER_ROOM: usize = 40;

// Whether a fault of this number has a place.
fn has_place(number: u8) -> bool
    ensures { result ≡ has_place number }
{
    (FIRST_PLACED..=LAST_PLACED).contains(&number)
}

// A lent buffer whose first `size` bytes are written.
// A buffer and a length: there is no heap, and who lends the buffer gets the lines in it.
#[derive(Drop)]
struct Page<'a> {
    out: &'a mut [u8],
    size: usize,
}

// `HasRoom` and `Added` are clauses and no type: each method asks for the room of another text.
impl Page<'_> {
    fn put(&mut self, text: &[u8])
        requires { HasRoom self.old (length text.now) }
        ensures { Added self.old text.now self.new }
    {
        words::put(self.out, self.size, text);
        self.size += text.len();
    }

    // In decimal, by hand: std's contracts let `write!` fail and an `InlineText` be cut, so neither proves what is promised here.
    #[tactic(auto, using(crate::proofs::LineLaws::decimal_one, crate::proofs::LineLaws::decimal_room))]
    fn put_number(&mut self, n: usize)
        requires { HasRoom self.old (length (decimal n)) }
        ensures { Added self.old (decimal n) self.new }
    {
        if n < 10 {
            self.put(&[b'0' + n as u8]);
        } else {
            self.put_number(n / 10);
            self.put(&[b'0' + (n % 10) as u8]);
        }
    }

    // A byte and no Option: it is a reply's, as the run wrote it, and `running_text` is of that byte.
    #[tactic(auto, using(crate::proofs::LineLaws::running_length))]
    fn put_running(&mut self, running: u8)
        requires { HasRoom self.old (length (running_text running)) }
        ensures { Added self.old (running_text running) self.new }
    {
        if running == NOBODY {
            self.put(b"-");
        } else {
            self.put_number(running as usize);
        }
    }

    // The line of an event.
    // Numbers and no enums: a reply's three bytes as they stand in the buffer (`reply_line`), printed as they are.
    #[tactic(auto, using(crate::proofs::LineLaws::reply_length))]
    fn put_reply(&mut self, answer: u8, running: u8, report: u8)
        requires { HasRoom self.old (length (reply_line answer running report)) }
        ensures { Added self.old (reply_line answer running report) self.new }
    {
        self.put_number(answer as usize);
        self.put(b" ");
        self.put_running(running);
        self.put(b" ");
        self.put_number(report as usize);
        self.put(b"\n");
    }

    fn put_replies(&mut self, replies: &[u8])
        requires { HasRoom self.old (reply_room * (length replies.now / reply_size)) }
        ensures added { Added self.old (reply_lines replies.now) self.new }
        ensures upper_bound { self.new.size ≤ self.old.size + reply_room * (length replies.now / reply_size) }
    {
        for &[answer, running, report] in replies.as_chunks::<REPLY_SIZE>().0 {
            self.put_reply(answer, running, report);
        }
    }

    // The place of a fault whose number has one.
    #[tactic(auto, using(crate::proofs::LineLaws::place_length))]
    fn put_place(&mut self, e: RunError)
        requires { HasRoom self.old (length (place_text (error_number e) (error_task e) (error_position e))) }
        ensures { Added self.old (place_text (error_number e) (error_task e) (error_position e)) self.new }
    {
        if has_place(e.number()) {
            self.put(b" ");
            self.put_number(e.task() as usize);
            self.put(b" ");
            self.put_number(e.position());
        }
    }

    #[tactic(auto, using(crate::proofs::LineLaws::byte_short, crate::proofs::LineLaws::place_short))]
    fn put_refused(&mut self, e: RunError)
        requires { HasRoom self.old other_room }
        ensures { Added self.old (refused_line (error_number e) (error_task e) (error_position e)) self.new }
    {
        self.put(b"refused ");
        self.put_number(e.number() as usize);
        self.put_place(e);
        self.put(b"\n");
    }

    #[tactic(auto, unfolding(crate::specs::Lines::room_for))]
    fn put_passed(&mut self, replies: &[u8])
        requires { HasRoom self.old (room_for replies.now) }
        ensures { Added self.old (passed_lines replies.now) self.new }
    {
        self.put(b"passed\n");
        self.put_replies(replies);
        self.put(b"end\n");
    }

    #[tactic(auto, unfolding(crate::specs::Lines::room_for, crate::specs::Lines::lines_of))]
    fn put_lines(&mut self, answer: RunAnswer, replies: &[u8])
        requires { HasRoom self.old (room_for replies.now) }
        ensures { Added self.old (lines_of answer replies.now) self.new }
    {
        match answer {
            Ok(()) => self.put_passed(replies),
            Err(e) => self.put_refused(e),
        }
    }
}

// Written without a product, which could wrap.
fn has_room(replies: &[u8], room: usize) -> bool
    ensures { result ≡ leb (room_for replies.now) room }
{
    OTHER_ROOM <= room && replies.len() / REPLY_SIZE <= (room - OTHER_ROOM) / REPLY_ROOM
}

// The lines of a run that answered so and wrote these replies, at the start of the buffer: how many bytes they are, or 0 where the
// buffer has fewer than OTHER_ROOM bytes and REPLY_ROOM for each reply, and then nothing is written.
// 0 and no Option, and a length beside the buffer: callers have this answer (`lines_size`).
pub fn lines(answer: RunAnswer, replies: &[u8], out: &mut [u8]) -> usize
    ensures value { result ≡ lines_size answer replies.now out.old }
    ensures out_after { out.new ≡ lines_buffer answer replies.now out.old }
{
    if !has_room(replies, out.len()) {
        return 0;
    }
    let mut page = Page { out, size: 0 };
    page.put_lines(answer, replies);
    page.size
}
