// A list of at most N bytes, in cells of its own. A contract sees the list.
ghost use Rattle.std.specs.Prelude.{◌≡◌, ◌∷◌, [], ◌++◌, suc, ◌-◌, ◌≤◌, ◌<◌, length, take, drop, get_or, position, ◌==◌};
ghost use Rattle.rules.specs.Lists.{without};
ghost use Rattle.memory.specs.Rows.{in_row, row_for, cut_at};

use std::marker::Model;

// Cells and a length: there is no heap, and std has no such list.
#[derive(Drop)]
pub struct Row<const N: usize> {
    len: u8,
    cells: [u8; N],
}

impl<const N: usize> Model for Row<N> {
    ghost use Rattle.std.specs.Prelude.{List, ℕ, ◌≤◌, ◌<◌, take};

    ghost Value = { List ℕ };

    ghost view = { λ r. take r.len r.cells };

    ghost invariant = { λ r. (r.len ≤ N) × (N < 256) };
}

impl<const N: usize> Row<N> {
    pub fn new() -> Self
        requires { N < 256 }
        ensures { result ≡ [] }
    {
        Row {
            len: 0,
            cells: [0; N],
        }
    }

    pub fn as_slice(&self) -> &[u8]
        ensures value { result.now ≡ self.now }
        ensures fits { length result.now ≤ N }
    {
        &self.cells[..self.len as usize]
    }

    pub fn len(&self) -> u8
        ensures { result ≡ length self.now }
    {
        self.len
    }

    // x goes behind the list.
    pub fn push(&mut self, x: u8)
        requires { length self.old < N }
        ensures { self.new ≡ self.old ++ x ∷ [] }
    {
        self.cells[self.len as usize] = x;
        self.len += 1;
    }

    // x goes before the list: the others move up by one.
    pub fn push_front(&mut self, x: u8)
        requires { length self.old < N }
        ensures { self.new ≡ x ∷ self.old }
    {
        self.cells.copy_within(..self.len as usize, 1);
        self.cells[0] = x;
        self.len += 1;
    }

    // The last goes, where there is one.
    pub fn pop(&mut self)
        ensures { self.new ≡ take (length self.old - 1) self.old }
    {
        self.len = self.len.saturating_sub(1);
    }

    // The first goes, where there is one: the others move down by one.
    pub fn pop_front(&mut self)
        ensures { self.new ≡ drop 1 self.old }
    {
        if self.len > 0 {
            self.remove_at(0);
        }
    }

    // All go.
    pub fn clear(&mut self)
        ensures { self.new ≡ [] }
    {
        self.len = 0;
    }

    // The element at i goes: those behind it move down by one.
    pub fn remove_at(&mut self, i: usize)
        requires { i < length self.old }
        ensures { self.new ≡ cut_at i self.old }
    {
        self.cells.copy_within(i + 1..self.len as usize, i);
        self.len -= 1;
    }

    // The first x goes, where there is one.
    pub fn remove(&mut self, x: u8)
        ensures { self.new ≡ without x self.old }
    {
        if let Some(i) = find(self.as_slice(), x) {
            self.remove_at(i);
        }
    }

    // The list of a row of bytes: its length, its elements, and then whatever.
    pub fn read(bytes: &[u8]) -> Self
        requires short { N < 256 }
        requires width { length bytes.now ≡ suc N }
        requires fits { get_or bytes.now 0 0 ≤ N }
        ensures { result ≡ in_row bytes.now }
    {
        let mut row = Row::new();
        row.len = bytes[0];
        row.cells.copy_from_slice(&bytes[1..]);
        row
    }

    // A row of bytes for the list: its length, its elements, and then zeros. Most lists are empty: no copy is called for these.
    pub fn write(&self, bytes: &mut [u8])
        requires width { length bytes.old ≡ suc N }
        ensures { bytes.new ≡ row_for (suc N) self.now }
    {
        bytes.fill(0);
        bytes[0] = self.len;
        if self.len > 0 {
            let n = self.len as usize;
            bytes[1..n + 1].copy_from_slice(&self.cells[..n]);
        }
    }
}

// Where x stands first.
fn find(cells: &[u8], x: u8) -> Option<usize>
    ensures { result ≡ position (λ y. y == x) cells.now }
{
    cells.iter().position(|&y| y == x)
}
