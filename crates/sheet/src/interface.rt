// What every sheet promises.
ghost use Rattle.std.specs.Prelude.{◌≡◌, ℕ, Bool, List, length, Option as Maybe};
ghost use Rattle.std.specs.List.{slice_get};
ghost use Rattle.std.specs.Option.{option_map};
ghost use Rattle.fields.specs.declared.headers.Qualifier.{Qualifier as AQualifier};
ghost use Rattle.sheet.specs.Rows.{Row as ARow, row_of};
ghost use Rattle.sheet.specs.declared.rows.Row.{Row as KeptRow};
ghost use Rattle.sheet.specs.Lawful.{Lawful};

use crate::rows::Row;
use fields::headers::Qualifier;

// The layout of a message. It means its list of rows with their codes, and asking changes nothing.
pub trait Sheet {
    ghost rows: { Self → List ARow };

    // The rows as the program keeps them, with what stands in their unused places.
    ghost kept: { Self → List KeptRow };

    // Has the row of this number, under this qualifier if any, this code?
    ghost codes: { Self → ℕ → Maybe AQualifier → List ℕ → Bool };

    // What every sheet shows of its rows.
    ghost lawful: { (s : Self) → Lawful (rows s) };

    // How many rows there are.
    fn len(&self) -> usize
        ensures { result ≡ length (rows self.now) };

    // The row of this number, from 0. None past the last.
    fn row(&self, i: usize) -> Option<Row>
        ensures kept { result ≡ slice_get (kept self.now) i }
        ensures means { option_map row_of result ≡ slice_get (rows self.now) i };

    // Has the row of this number, under this qualifier if any, this code?
    fn has_code(&self, row: usize, qualifier: Option<Qualifier>, code: &[u8]) -> bool
        ensures { result ≡ codes self.now row qualifier code.now };
}
