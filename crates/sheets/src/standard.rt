// The sheets of the standard's two messages, chosen by the message number.
ghost use Rattle.std.specs.Prelude.{◌≡◌, map};
ghost use Rattle.std.specs.List.{slice_get};
ghost use Rattle.std.specs.Result.{result_ok};
ghost use Rattle.sheets.specs.Kept.{kept_of};
ghost use Rattle.sheets.specs.Lines.{row_in};
ghost use Rattle.sheets.specs.Standards.{sheet_of, rows_of, functions, codes_of, allowed as may_stand};
ghost use Rattle.sheets.specs.Lawful.{all_lawful};

use crate::codes::{INSTRUCTION_FUNCTIONS, STATUS_FUNCTIONS, is_among, stands_under};
use crate::tables::{INSTRUCTION_ROWS, Line, STATUS_ROWS};
use fields::headers::Qualifier;
use sheet::interface::Sheet;
use sheet::rows::{Format, Row};

// A sheet of the standard: the layout of one of its messages.
#[derive(Clone, Copy, PartialEq, Eq, Debug)]
pub enum StandardSheet {
    // An instruction to vote.
    Mt565,
    // The status of an instruction.
    Mt567,
}

impl StandardSheet {
    // The rows of the sheet, as its table has them.
    fn lines(self) -> &'static [Line]
        ensures { map row_in result.now ≡ kept_of self }
    {
        match self {
            StandardSheet::Mt565 => INSTRUCTION_ROWS,
            StandardSheet::Mt567 => STATUS_ROWS,
        }
    }

    // The row of this number, from 0. None past the last.
    fn kept_row(self, i: usize) -> Option<Row>
        ensures { result ≡ slice_get (kept_of self) i }
    {
        self.lines().get(i).map(|line| line.row())
    }

    // The codes of 23G, which has no qualifier.
    fn functions(self) -> &'static [&'static [u8]]
        ensures { map (λ k. k.now) result.now ≡ functions self }
    {
        match self {
            StandardSheet::Mt565 => INSTRUCTION_FUNCTIONS,
            StandardSheet::Mt567 => STATUS_FUNCTIONS,
        }
    }

    // May the code stand under this qualifier, or under none?
    fn allows(self, qualifier: Option<Qualifier>, code: &[u8]) -> bool
        ensures { result ≡ may_stand self qualifier code.now }
    {
        match qualifier {
            Some(qualifier) => stands_under(qualifier, code),
            None => is_among(self.functions(), code),
        }
    }
}

// No sheet has this message number.
#[derive(Clone, Copy, PartialEq, Eq, Debug)]
pub struct UnknownMessage;

// The sheet of a message number.
impl TryFrom<u16> for StandardSheet {
    type Error = UnknownMessage;

    ghost try_from_gives = { λ number r. result_ok r ≡ sheet_of number };

    fn try_from(number: u16) -> Result<StandardSheet, UnknownMessage> {
        match number {
            565 => Ok(StandardSheet::Mt565),
            567 => Ok(StandardSheet::Mt567),
            _ => Err(UnknownMessage),
        }
    }
}

impl Sheet for StandardSheet {
    ghost rows = { rows_of };

    ghost kept = { kept_of };

    ghost codes = { codes_of };

    ghost lawful = { all_lawful };

    fn len(&self) -> usize {
        self.lines().len()
    }

    #[tactic(auto, using(crate::proofs::Meant::row_meant))]
    fn row(&self, i: usize) -> Option<Row> {
        self.kept_row(i)
    }

    fn has_code(&self, row: usize, qualifier: Option<Qualifier>, code: &[u8]) -> bool {
        match self.row(row) {
            Some(Row::Field(field)) => {
                field.format == Format::Code
                    && field.admits(qualifier)
                    && self.allows(qualifier, code)
            }
            _ => false,
        }
    }
}
