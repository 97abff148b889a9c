// Rows of whole numbers.
ghost use Rattle.std.specs.Prelude.{◌≡◌, ◌+◌, ◌≤◌, ◌<◌, ◌∷◌, ◌++◌, [], IfSome, length};
ghost use Rattle.deliveries.specs.Rows.{begins_row, is_marked, row_at, row_end};
ghost use Rattle.deliveries.specs.Text.{some_flag};

use std::marker::Model;

/// The most numbers that can be marked: the cycles of the longest run, and the most messages of one aircraft to another
/// one.
pub(crate) const NUMBERS: usize = 600;

/// A row of whole numbers, by its first and its last one.
#[derive(Clone, Copy, Debug, PartialEq, Eq)]
pub struct Row {
    pub first: u16,
    pub last: u16,
}

/// Which of the whole numbers from 1 to [`Numbers::len`] are marked.
#[derive(Drop)]
pub struct Numbers {
    flags: [bool; NUMBERS],
    len: u16,
}

impl Model for Numbers {
    ghost use Rattle.std.specs.Prelude.{◌≤◌, Bool, List, take};

    ghost Value = { List Bool };

    ghost view = { λ a. take a.len a.flags };

    ghost invariant = { λ a. a.len ≤ 600 };
}

impl Numbers {
    // There is no number yet.
    pub(crate) fn new() -> Numbers
        ensures { result ≡ [] }
    {
        Numbers {
            flags: [false; NUMBERS],
            len: 0,
        }
    }

    // Adds the next number.
    pub(crate) fn push(&mut self, marked: bool)
        requires { length self.old < 600 }
        ensures { self.new ≡ self.old ++ marked ∷ [] }
    {
        self.flags[usize::from(self.len)] = marked;
        self.len += 1;
    }

    // Those that there are, as a slice.
    fn flags(&self) -> &[bool]
        ensures { result.now ≡ self.now }
    {
        &self.flags[..usize::from(self.len)]
    }

    /// The last number, at most 600.
    pub fn len(&self) -> u16
        ensures value { result ≡ length self.now }
        ensures few { result ≤ 600 }
    {
        self.len
    }

    /// Whether a number from 1 on is marked. A number after the last one isn't.
    pub fn is_marked(&self, number: u16) -> bool
        requires { 1 ≤ number }
        ensures { result ≡ is_marked self.now number }
    {
        match self.flags().get(usize::from(number - 1)) {
            Some(flag) => *flag,
            None => false,
        }
    }

    /// Whether some number is marked.
    pub fn has_marks(&self) -> bool
        ensures { result ≡ some_flag self.now }
    {
        self.flags().iter().any(|flag| *flag)
    }

    fn begins_row(&self, number: u16) -> bool
        requires { 1 ≤ number }
        ensures { result ≡ begins_row self.now number }
    {
        if !self.is_marked(number) {
            return false;
        }
        if number == 1 {
            return true;
        }
        !self.is_marked(number - 1)
    }

    // The last number of the row to which a marked number belongs.
    fn row_end(&self, number: u16) -> u16
        requires begun { 1 ≤ number }
        requires within { number ≤ length self.now }
        ensures value { result ≡ row_end self.now (length self.now) number }
        ensures within { result ≤ length self.now }
    {
        for after in number..self.len() {
            if !self.is_marked(after + 1) {
                return after;
            }
        }
        self.len()
    }

    /// The maximal row of marked numbers that begins at a number from 1 on; none where none does. All rows are found
    /// when each number is asked, in as many steps as there are numbers.
    pub fn row_at(&self, number: u16) -> Option<Row>
        requires { 1 ≤ number }
        ensures value { result ≡ row_at self.now number }
        ensures first { IfSome result (λ row. row.first ≤ 600) }
        ensures last { IfSome result (λ row. row.last ≤ 600) }
    {
        if number > self.len() {
            return None;
        }
        if !self.begins_row(number) {
            return None;
        }
        Some(Row {
            first: number,
            last: self.row_end(number),
        })
    }
}
