// Whether a value has the format of its row.
ghost use Rattle.std.specs.Prelude.{◌≡◌};
ghost use Rattle.std.specs.Option.{option_map};
ghost use Rattle.reader.specs.Values.{content_of, content_fits, value_fits, row_fits, field_fits, value_fault};

use fields::headers::Qualifier;
use fields::walk::{Field, Fields, value_of};
use format::identifiers::identifier;
use format::quantities::quantity;
use format::simple::{is_account, is_isin, is_option_number, is_owner, is_reference, is_timestamp};
use format::votes::vote;
use sheet::interface::Sheet;
use sheet::keys::{find_row, key_of};
use sheet::rows::{Format, Row};

// What a value says: all of it, or what stands behind the qualifier and two slashes.
fn content(qualifier: Option<Qualifier>, value: &[u8]) -> Option<&[u8]>
    ensures { option_map (λ x. x.now) result ≡ content_of qualifier value.now }
{
    match qualifier {
        Some(Qualifier(a, b, c, d)) => value.strip_prefix(&[a, b, c, d, b'/', b'/']),
        None => Some(value),
    }
}

// What a sheet asks of a value: the format of its row, which has this number, under this qualifier.
#[derive(Drop)]
struct Asked<'a, S> {
    sheet: &'a S,
    row: usize,
    qualifier: Option<Qualifier>,
    format: Format,
}

impl<S: Sheet> Asked<'_, S> {
    // Has the content of a value the format?
    fn content_fits(&self, content: &[u8]) -> bool
        ensures { result ≡ content_fits (S.codes self.now.sheet.now self.now.row self.now.qualifier) self.now.format content.now }
    {
        match self.format {
            Format::Reference => is_reference(content),
            Format::Code => self.sheet.has_code(self.row, self.qualifier, content),
            Format::Timestamp => is_timestamp(content),
            Format::Isin => is_isin(content),
            Format::Account => is_account(content),
            Format::Owner => is_owner(content),
            Format::AlternateIdentifier => false,
            Format::Quantity => quantity(content).is_some(),
            Format::OptionNumber => is_option_number(content),
            Format::Vote => vote(content).is_some(),
        }
    }

    // Has the value the format? An alternate identifier is told by the whole value, any other by what stands behind the qualifier.
    fn value_fits(&self, value: &[u8]) -> bool
        ensures { result ≡ value_fits (S.codes self.now.sheet.now self.now.row self.now.qualifier) self.now.qualifier self.now.format value.now }
    {
        if self.format == Format::AlternateIdentifier {
            return identifier(value).is_some();
        }
        // Stays a match: through the closure of `is_some_and`, which asks a sheet, the proof does not close.
        match content(self.qualifier, value) {
            Some(content) => self.content_fits(content),
            None => false,
        }
    }
}

// Has the field the format of its row? A field that begins or ends a block has no more to it than its key.
fn field_fits<S: Sheet>(sheet: &S, text: &[u8], field: Field) -> bool
    ensures { result ≡ field_fits (S.rows sheet.now) (S.codes sheet.now) text.now field }
{
    let Some(number) = find_row(sheet, key_of(text, field)) else {
        return false;
    };
    match sheet.row(number) {
        Some(Row::Field(row)) => {
            let asked = Asked {
                sheet,
                row: number,
                qualifier: field.qualifier,
                format: row.format,
            };
            asked.value_fits(value_of(text, field))
        }
        Some(Row::Open(..) | Row::Close(_)) => true,
        None => false,
    }
}

// Where the first value starts that has not its row's format.
pub(crate) fn value_fault<S: Sheet>(sheet: &S, text: &[u8]) -> Option<usize>
    ensures { result ≡ value_fault (S.rows sheet.now) (S.codes sheet.now) text.now }
{
    Fields::of(text)
        .find(|field| !field_fits(sheet, text, *field))
        .map(|field| field.value)
}
