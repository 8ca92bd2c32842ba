// The kinds of the dispatcher: a roster's limits, priorities, places of tasks, events, refusals and reports. Their rules are in specs/.
#![tactic(auto)]

mod roster;

ghost use Rattle.std.specs.Prelude.{◌≡◌, ℕ, max};
ghost use Rattle.rules.specs.Priorities.{in_range, default_of, checked_of, subrange_of};
ghost use Rattle.rules.specs.Answers.{refusal_number, number_by, report_number};
ghost use Rattle.rules.specs.Kinds.{kind_of, kind_number, place_of, kind_found};

pub use roster::Roster;

// A priority is a kind of its own. Its field is public, so one out of range can be handed in: rules refuse it.
#[derive(Clone, Copy, PartialEq, Eq, PartialOrd, Ord)]
pub struct Priority(pub u8);

// The two subranges of Annex D (D.1).
#[derive(Clone, Copy, PartialEq, Eq)]
pub enum Subrange {
    Priority,
    InterruptPriority,
}

impl Priority {
    pub const FIRST: Priority = Priority(1);

    pub const LAST: Priority = Priority(32);

    pub const DEFAULT: Priority = Priority(15);

    pub const FIRST_INTERRUPT: Priority = Priority(31);

    // Whether a value that was handed in is a priority.
    pub fn in_range(self) -> bool
        ensures { result ≡ in_range self.0 }
    {
        self >= Priority::FIRST && self <= Priority::LAST
    }

    pub fn higher(self, other: Priority) -> Priority
        ensures { result.0 ≡ max self.0 other.0 }
    {
        self.max(other)
    }

    // A value that was handed in as a priority, where it is one.
    pub fn checked(value: u64) -> Option<Priority>
        ensures { result ≡ checked_of value }
    {
        u8::try_from(value)
            .ok()
            .map(Priority)
            .filter(|p| p.in_range())
    }

    // The subrange of a priority that is in range.
    pub fn subrange(self) -> Option<Subrange>
        ensures { result ≡ subrange_of self }
    {
        if !self.in_range() {
            return None;
        }
        if self < Priority::FIRST_INTERRUPT {
            return Some(Subrange::Priority);
        }
        Some(Subrange::InterruptPriority)
    }
}

// The default under a promise, which a constant does not have; the other three are pinned by `checked` and `subrange`.
// By hand: a derive would give the default of a u8, 0.
impl Default for Priority {
    ghost is_default = { λ p. p ≡ default_of };

    fn default() -> Self {
        Priority::DEFAULT
    }
}

// Where a task is; a delayed one carries its due time.
#[derive(Clone, Copy, PartialEq, Eq)]
pub enum Place {
    Running,
    Ready,
    Delayed(u64),
    Suspended,
    Ended,
}

impl Place {
    // Written out: no derive leaves out a case's operand.
    pub fn kind(self) -> PlaceKind
        ensures { result ≡ kind_of self }
    {
        match self {
            Place::Running => PlaceKind::Running,
            Place::Ready => PlaceKind::Ready,
            Place::Delayed(_) => PlaceKind::Delayed,
            Place::Suspended => PlaceKind::Suspended,
            Place::Ended => PlaceKind::Ended,
        }
    }
}

// Where a task is, without its due time: the number of each is its byte in a state and on a board.
// An enum beside Place: a case with an operand, as Delayed has, has no discriminant.
#[derive(Clone, Copy, PartialEq, Eq)]
pub enum PlaceKind {
    Running = 0,
    Ready = 1,
    Delayed = 2,
    Suspended = 3,
    Ended = 4,
}

impl PlaceKind {
    // The place of this kind; a delayed task's has its due time.
    // Written out, and no From: it takes two values.
    pub fn place(self, due: u64) -> Place
        ensures { result ≡ place_of self due }
    {
        match self {
            PlaceKind::Running => Place::Running,
            PlaceKind::Ready => Place::Ready,
            PlaceKind::Delayed => Place::Delayed(due),
            PlaceKind::Suspended => Place::Suspended,
            PlaceKind::Ended => Place::Ended,
        }
    }
}

// A number that is none of a place kind.
#[derive(Clone, Copy, PartialEq, Eq)]
pub struct NoSuchKind(pub u8);

impl From<PlaceKind> for u8 {
    ghost from_gives = { λ k n. n ≡ kind_number k };

    fn from(kind: PlaceKind) -> u8 {
        kind as u8
    }
}

// Written out: no derive makes a kind of its number.
impl TryFrom<u8> for PlaceKind {
    type Error = NoSuchKind;

    ghost try_from_gives = { λ n r. r ≡ kind_found n };

    fn try_from(n: u8) -> Result<Self, NoSuchKind> {
        match n {
            0 => Ok(PlaceKind::Running),
            1 => Ok(PlaceKind::Ready),
            2 => Ok(PlaceKind::Delayed),
            3 => Ok(PlaceKind::Suspended),
            4 => Ok(PlaceKind::Ended),
            _ => Err(NoSuchKind(n)),
        }
    }
}

// A task's record, with the base that waits for its outermost Leave, if there is one; the objects that it holds are kept beside it.
#[derive(Clone, Copy)]
pub struct Task {
    pub place: Place,
    pub base: Priority,
    pub waiting: Option<Priority>,
    pub permit: bool,
}

impl Task {
    // The record of no task.
    pub const BLANK: Task = Task {
        place: Place::Ended,
        base: Priority(0),
        waiting: None,
        permit: false,
    };
}

// What can happen to a state. Task numbers, object numbers and readings are as wide as a caller may say them.
#[derive(Clone, Copy)]
pub enum Event {
    Enter(u64),
    Leave(u64),
    Delay(u16),
    Suspend,
    Release(u64),
    Clock(u64),
    Set(u64, Priority),
    Work,
    Finish,
}

// Why an event or a fresh start is refused, each with its number in the table of answers.
#[derive(Clone, Copy, PartialEq, Eq)]
pub enum Refusal {
    NoSuchTask = 1,
    NoSuchObject = 2,
    BadPriority = 3,
    BadReading = 4,
    NobodyRuns = 5,
    EndedTask = 6,
    InsideAction = 7,
    AboveCeiling = 8,
    NotInnermost = 9,
    Unsound = 10,
    BadCounts = 13,
    BadBases = 15,
}

// What an event or a fresh start answers: done, or why not.
pub type Answer = Result<(), Refusal>;

// What has a number in the table of answers.
pub trait Numbered {
    ghost number: { Self → ℕ };

    fn number(self) -> u8
        ensures { result ≡ number self };
}

impl Numbered for Refusal {
    ghost number = { refusal_number };

    fn number(self) -> u8 {
        self as u8
    }
}

// Done is 0: the table of the papers has it (`number_by`).
impl<T: Drop, E: Numbered> Numbered for Result<T, E> {
    ghost number = { number_by E.number };

    fn number(self) -> u8 {
        match self {
            Ok(_) => 0,
            Err(e) => e.number(),
        }
    }
}

// Why the processor changed hands at an event, each with its number.
#[derive(Clone, Copy, PartialEq, Eq)]
pub enum Report {
    Unchanged = 0,
    Preempted = 1,
    Changed = 2,
}

impl Numbered for Report {
    ghost number = { report_number };

    fn number(self) -> u8 {
        self as u8
    }
}
