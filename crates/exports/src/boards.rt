// A board in lent bytes, three for each row: place kind, active priority, position. Crate rules has the numbers of the kinds.
ghost use Rattle.std.specs.Prelude.{◌≡◌};
ghost use Rattle.board_bytes.specs.Boards.{fill_answer, filled_bytes, next_number};

// Fills the board from a state: 0 with a row for each task, and no others; 10 or 13, and nothing.
#[unsafe(no_mangle)]
pub extern "C" fn dispatch_fill(state: &[u8], board: &mut [u8]) -> u8
    ensures value { result ≡ fill_answer state.now board.old }
    ensures board_after { board.new ≡ filled_bytes state.now board.old }
{
    layout::fill(state, board)
}

// The next row of the board: the answer's number, and 256 times the row, 255 being nobody.
#[unsafe(no_mangle)]
pub extern "C" fn dispatch_next(board: &[u8]) -> u64
    ensures { result ≡ next_number board.now }
{
    layout::next(board)
}
