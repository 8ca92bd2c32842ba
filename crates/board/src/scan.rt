// The scan for the next row: two rows compared, and the best so far.
ghost use Rattle.std.specs.Prelude.{◌≡◌};
ghost use Rattle.board.specs.Rows.{is_ready_kind};
ghost use Rattle.board.specs.Scan.{precedes_of, leads_of};

use crate::Row;
use rules::PlaceKind;

pub fn is_ready(kind: PlaceKind) -> bool
    ensures { result ≡ is_ready_kind kind }
{
    kind == PlaceKind::Ready
}

// Whether a row comes before an earlier one. By hand: an Ord of rows would not agree with their equality, since the kind does not count.
fn precedes(a: Row, b: Row) -> bool
    ensures { result ≡ precedes_of a b }
{
    a.priority > b.priority || a.priority == b.priority && a.position < b.position
}

// Whether a row leads, of it and the best so far.
pub fn leads(row: Row, best: Option<(usize, Row)>) -> bool
    ensures { result ≡ leads_of row best }
{
    is_ready(row.kind) && best.is_none_or(|(_, b)| precedes(row, b))
}
