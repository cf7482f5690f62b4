// What is printed of a text.
use fields::headers::{Qualifier, Tag};
use fields::walk::{Field, Fields, field_count, part, value_of};
use reader::table::Entry;
use std::{fmt, io};

// What was written, beside the text.
pub fn print_filed(rt: &impl Print, text: &[u8], out: &[u8], len: usize) -> io::Result<()> {
    if part(out, 0, len) == text {
        println!(rt; "{len} bytes, the same")
    } else {
        println!(rt; "{len} bytes, not the same")
    }
}

// Characters as they stand, a CR as \r and an LF as \n.
#[derive(Clone, Copy)]
pub struct Shown<'a>(pub &'a [u8]);

impl fmt::Display for Shown<'_> {
    fn fmt<W: fmt::Write>(&self, f: &mut fmt::Formatter<W>) -> fmt::Result {
        for b in self.0 {
            match *b {
                b'\r' => f.write_str("\\r")?,
                b'\n' => f.write_str("\\n")?,
                c => f.write_char(char::from(c))?,
            }
        }
        Ok(())
    }
}

// The fields of a text: how many, and then each with its start, tag, qualifier and value.
pub fn print_fields(rt: &impl Print, text: &[u8]) -> io::Result<()> {
    println!(rt; "{} fields", field_count(text))?;
    for field in Fields::of(text) {
        print_field(rt, text, field)?;
    }
    Ok(())
}

fn print_field(rt: &impl Print, text: &[u8], field: Field) -> io::Result<()> {
    let Tag(a, b, c) = field.tag;
    let tag = [a, b, c];
    let qualifier = letters_of(field.qualifier);
    println!(rt;
        "  {:>5}  {}  {}  {}",
        field.start,
        Shown(&tag),
        Shown(&qualifier),
        Shown(value_of(text, field))
    )
}

// The qualifier, or a dash in a field of its width.
fn letters_of(qualifier: Option<Qualifier>) -> [u8; 4] {
    match qualifier {
        Some(Qualifier(a, b, c, d)) => [a, b, c, d],
        None => [b'-', b' ', b' ', b' '],
    }
}

// The field table of a text: how many entries, and then each with its row, start, length and value.
pub fn print_table(rt: &impl Print, text: &[u8], table: &[Entry], count: usize) -> io::Result<()> {
    println!(rt; "{count} fields")?;
    for entry in table.iter().take(count) {
        print_entry(rt, text, *entry)?;
    }
    Ok(())
}

fn print_entry(rt: &impl Print, text: &[u8], entry: Entry) -> io::Result<()> {
    let value = Shown(part(text, entry.start, entry.len));
    println!(rt;
        "  row {:>2}  {:>5}  {:>3}  {value}",
        entry.row, entry.start, entry.len
    )
}
