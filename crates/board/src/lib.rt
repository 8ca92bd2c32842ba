// The lent board: rows of task records that a host lends, filled from a state and asked for the next row.
// A lent slice of records is asked and filled in place.
#![tactic(auto)]

mod scan;
mod source;

ghost use Rattle.std.specs.Prelude.{◌≡◌, ◌≤◌, take, drop, option_map};
ghost use Rattle.board.specs.Rows.{row_limit, next_number, unfilled_number, told_of, filling_of, behind};
ghost use Rattle.board.specs.Scan.{next_of, next_first_of};
ghost use Rattle.board.specs.Fill.{fill_of, fill_first_of};

use crate::scan::leads;
use crate::source::{row_of, tasks_in};
use dispatch::State;
pub use rules::PlaceKind;
use rules::{Numbered, Priority, Refusal, Roster};

// The most rows that a board may have when it is asked, one for each task; specs/ has the same.
pub const ROW_LIMIT: usize = Roster::TASKS;

// One task on the board. Its fields are public, so a row of any values can be handed in.
#[derive(Clone, Copy)]
pub struct Row {
    pub kind: PlaceKind,
    pub priority: Priority,
    pub position: u8,
}

// Why a board names no next row.
#[derive(Clone, Copy, PartialEq, Eq)]
pub enum NextError {
    TooManyRows,
    BadPriority,
}

// What the board answers when it is asked for its next row: a row or nobody; told_of in specs/ has the number and the row of each.
pub type NextAnswer = Result<Option<usize>, NextError>;

// Why a board is not filled.
#[derive(Clone, Copy, PartialEq, Eq)]
pub enum FillError {
    Unsound,
    TooFewRows,
}

// What filling a board answers; fill_number in specs/ has the number of each.
pub type FillAnswer = Result<(), FillError>;

// What `fill_first` hands back: the answer, and the rows after it.
// The rows stand beside the answer and not in its Ok, since a refusal hands them back as they came (fill_first_of).
#[derive(Clone, Copy)]
pub struct Filled {
    pub answer: FillAnswer,
    pub rows: [Row; ROW_LIMIT],
}

// By cases: each takes its number from the rules' table; a discriminant here would say the number a second time.
impl Numbered for NextError {
    ghost number = { next_number };

    fn number(self) -> u8 {
        match self {
            NextError::TooManyRows => Refusal::BadCounts.number(),
            NextError::BadPriority => Refusal::BadPriority.number(),
        }
    }
}

// By cases: each takes its number from the rules' table; a discriminant here would say the number a second time.
impl Numbered for FillError {
    ghost number = { unfilled_number };

    fn number(self) -> u8 {
        match self {
            FillError::Unsound => Refusal::Unsound.number(),
            FillError::TooFewRows => Refusal::BadCounts.number(),
        }
    }
}

// The number of the best row.
fn number(best: Option<(usize, Row)>) -> Option<usize>
    ensures { result ≡ option_map (λ b. b.0) best }
{
    best.map(|(i, _)| i)
}

// The row that is to run next.
pub fn next(rows: &[Row]) -> NextAnswer
    ensures { told_of result ≡ next_of rows.now }
{
    if ROW_LIMIT < rows.len() {
        return Err(NextError::TooManyRows);
    }
    let mut best = None;
    for (i, &row) in rows.iter().enumerate() {
        if !row.priority.in_range() {
            return Err(NextError::BadPriority);
        }
        if leads(row, best) {
            best = Some((i, row));
        }
    }
    Ok(number(best))
}

// `next` of the first `count` rows, for callers that hold the rows by value.
// Rows with a count beside: callers by value have no slice, and there is no heap (`next_first_of`).
pub fn next_first(rows: [Row; ROW_LIMIT], count: usize) -> NextAnswer
    ensures { told_of result ≡ next_first_of rows count }
{
    match rows.get(..count) {
        Some(board) => next(board),
        None => Err(NextError::TooManyRows),
    }
}

// Writes the first rows of the board, one for each task of the state, or none.
pub fn fill(state: State, board: &mut [Row]) -> FillAnswer
    ensures { filling_of result board.new ≡ fill_of state board.old }
{
    if !state.sound() {
        return Err(FillError::Unsound);
    }
    let n = tasks_in(state);
    if board.len() < n {
        return Err(FillError::TooFewRows);
    }
    for t in 0..n {
        board[t] = row_of(&state, t);
    }
    Ok(())
}

// `fill` of the first `count` rows, for callers that hold the rows by value. With more than there are, none is lent.
// Rows with a count beside, as next_first (`fill_first_of`).
pub fn fill_first(state: State, rows: [Row; ROW_LIMIT], count: usize) -> Filled
    ensures { filling_of result.answer result.rows ≡ fill_first_of state rows count }
{
    let mut rows = rows;
    if ROW_LIMIT < count {
        let answer = fill(state, &mut []);
        return Filled { answer, rows };
    }
    let answer = fill(state, &mut rows[..count]);
    Filled { answer, rows }
}
