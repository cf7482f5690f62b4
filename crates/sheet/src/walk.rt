// The rows of a sheet, one after the other.
ghost use Rattle.std.specs.Prelude.{◌≡◌, ◌≤◌, length};
ghost use Rattle.std.specs.Iterator.{YieldsFirstBy, item_count};
ghost use Rattle.sheet.specs.Coming.{numbered, coming, number_and_row};

use crate::interface::Sheet;
use crate::rows::Row;

// The rows of a sheet, each behind its number, to be gone through by a `for`.
#[derive(Drop)]
pub struct Rows<'a, S> {
    sheet: &'a S,
    at: usize,
}

impl<'a, S: Sheet> Rows<'a, S> {
    // The rows from number `at` on.
    pub fn from_number(sheet: &'a S, at: usize) -> Rows<'a, S>
        ensures rest { coming S.rows result ≡ numbered at (S.rows sheet.now) }
        ensures few { length (coming S.rows result) ≤ 64 }
    {
        Rows { sheet, at }
    }

    pub fn of(sheet: &'a S) -> Rows<'a, S>
        ensures all { coming S.rows result ≡ numbered 0 (S.rows sheet.now) }
        ensures few { length (coming S.rows result) ≤ 64 }
    {
        Rows::from_number(sheet, 0)
    }
}

impl<'a, S: Sheet> Iterator for Rows<'a, S> {
    type Item = (usize, Row);

    ghost next_gives = { YieldsFirstBy number_and_row (coming S.rows) };

    ghost remaining = { item_count (coming S.rows) };

    #[tactic(auto, using(crate::proofs::Walking::numbered_read))]
    fn next(&mut self) -> Option<(usize, Row)> {
        let at = self.at;
        let row = self.sheet.row(at)?;
        self.at += 1;
        Some((at, row))
    }
}
