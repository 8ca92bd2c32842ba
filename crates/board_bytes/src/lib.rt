// Internal: pub only for our own crates. The board, as lent bytes: filled from a state, and asked for its next row.
#![tactic(auto)]

ghost use Rattle.std.specs.Prelude.{◌≡◌, ◌*◌, ◌≤◌, length};
ghost use mathlib.Core.List.{flat_map};
ghost use Rattle.std.proofs.lemmas.List.Edits.{sets};
ghost use Rattle.board.specs.Rows.{row_limit, told_of};
ghost use Rattle.board_bytes.specs.Boards.{row_size, row_from, rows_from, row_bytes, fill_answer, filled_bytes};
ghost use Rattle.board_bytes.specs.Boards.{lent_of, row_byte, next_number};

use board::{NextAnswer, ROW_LIMIT, Row};
use cells::readable;
use cells::sizes::NOBODY;
use rules::{Numbered, PlaceKind, Priority, Refusal};
use state_bytes::read;
use std::array;
use words::{byte_at, put};

const ROW_SIZE: usize = 3;

// The row that starts at i; past the last byte there are zeros.
// No From, here and in row_bytes: neither Row nor bytes are a type of this crate.
#[tactic(auto, unfolding(crate::specs::Boards::row_from))]
fn row_from(board: &[u8], i: usize) -> Row
    requires { i ≤ row_size * row_limit }
    ensures { result ≡ row_from board.now i }
{
    Row {
        kind: PlaceKind::try_from(byte_at(board, i)).unwrap_or(PlaceKind::Running),
        priority: Priority(byte_at(board, i + 1)),
        position: byte_at(board, i + 2),
    }
}

// As many rows as may be asked.
fn rows_from(board: &[u8]) -> [Row; ROW_LIMIT]
    ensures { result ≡ rows_from board.now row_limit }
{
    array::from_fn(|i| row_from(board, ROW_SIZE * i))
}

#[tactic(auto, unfolding(crate::specs::Boards::row_bytes))]
fn row_bytes(row: Row) -> [u8; ROW_SIZE]
    ensures { result ≡ row_bytes row }
{
    [u8::from(row.kind), row.priority.0, row.position]
}

// The rows at the front of the board.
fn put_rows(board: &mut [u8], rows: &[Row])
    requires few { length rows.now ≤ row_limit }
    requires room { row_size * length rows.now ≤ length board.old }
    ensures { board.new ≡ sets board.old 0 (flat_map row_bytes rows.now) }
{
    for (i, &row) in rows.iter().enumerate() {
        put(board, ROW_SIZE * i, &row_bytes(row));
    }
}

// How many of n rows are lent: no more than there can be tasks. As an if and no min: the edit few_rows_lent is about boards past the
// limit alone, which min cannot say.
fn lent(n: usize) -> usize
    ensures { result ≡ lent_of n }
{
    if ROW_LIMIT < n { ROW_LIMIT } else { n }
}

// Writes the first rows of the board, one for each task of the state, or nothing.
// The answers here are numbers and no enum: the exported functions hand them to C as they are.
pub fn fill(bytes: &[u8], board: &mut [u8]) -> u8
    ensures value { result ≡ fill_answer bytes.now board.old }
    ensures board_after { board.new ≡ filled_bytes bytes.now board.old }
{
    if !readable(bytes) {
        return Refusal::Unsound.number();
    }
    let state = read(bytes);
    let blank = Row {
        kind: PlaceKind::Ended,
        priority: Priority(0),
        position: 0,
    };
    let filled = board::fill_first(state, [blank; ROW_LIMIT], lent(board.len() / ROW_SIZE));
    match filled.answer {
        Ok(()) => {
            put_rows(board, &filled.rows[..state.task_count as usize]);
            0
        }
        Err(e) => e.number(),
    }
}

// The row of an answer, 255 being nobody.
fn row_byte(answer: NextAnswer) -> u64
    ensures { result ≡ row_byte (told_of answer).next }
{
    match answer {
        Ok(Some(i)) => i as u64,
        _ => u64::from(NOBODY),
    }
}

// The next row of the board: the answer's number, and 256 times the row.
pub fn next(board: &[u8]) -> u64
    ensures { result ≡ next_number board.now }
{
    let answer = board::next_first(rows_from(board), board.len() / ROW_SIZE);
    u64::from(answer.number()) + 256 * row_byte(answer)
}
