// Showing the text in a file.
use crate::command::View;
use crate::mistake::Mistake;
use crate::refusal::Refusal;
use crate::show::{print_fields, print_filed, print_table};
use fields::faults::{LONGEST, check_text};
use reader::faults::ReadingFault;
use reader::reading::read;
use reader::table::Entry;
use std::alloc::{AllocError, Global};
use std::rt::Files;
use std::{fs, io};
use writer::filing::{FilingFault, refile};

// The bytes of a file.
pub fn load<'a>(rt: &(impl Files + AllocGlobal), file: &'a str) -> Result<Vec<u8>, Mistake<'a>> {
    fs::read(rt, file).map_err(|_| Mistake::Unreadable(file))
}

// A field table of so many entries. A text has no more fields than bytes, so a larger one is cut at the longest text.
pub fn new_table(heap: Global, entries: usize) -> Result<Vec<Entry>, AllocError> {
    let blank = Entry {
        row: 0,
        start: 0,
        len: 0,
    };
    vec![in heap; blank; entries.min(LONGEST)]
}

// Prints the line and what it shows of the text.
pub fn show(
    rt: &(impl Print + AllocGlobal),
    line: &str,
    view: View,
    text: &[u8],
) -> Result<(), Mistake<'static>> {
    match view {
        View::Fields => {
            print!(rt; "{line}: ")?;
            show_fields(rt, text)?;
        }
        View::Table(number, entries) => {
            let mut table = new_table(rt.alloc(), entries)?;
            print!(rt; "{line}: ")?;
            show_table(rt, number, text, &mut table)?;
        }
        View::Filing(number, room) => {
            let mut table = new_table(rt.alloc(), LONGEST)?;
            let mut out = vec![in rt.alloc(); 0u8; room.min(LONGEST)]?;
            print!(rt; "{line}: ")?;
            show_filing(rt, number, text, &mut table, &mut out)?;
        }
    }
    Ok(())
}

fn show_fields(rt: &impl Print, text: &[u8]) -> io::Result<()> {
    match check_text(text) {
        Ok(()) => print_fields(rt, text),
        Err(fault) => println!(rt; "{}", Refusal::Reading(ReadingFault::from(fault))),
    }
}

fn show_table(rt: &impl Print, number: u16, text: &[u8], table: &mut [Entry]) -> io::Result<()> {
    match read(number, text, table) {
        Ok(count) => print_table(rt, text, table, count),
        Err(fault) => println!(rt; "{}", Refusal::Reading(fault)),
    }
}

fn show_filing(
    rt: &impl Print,
    number: u16,
    text: &[u8],
    table: &mut [Entry],
    out: &mut [u8],
) -> io::Result<()> {
    match refile(number, text, table, out) {
        Ok(len) => print_filed(rt, text, out, len),
        Err(FilingFault::Reading(fault)) => println!(rt; "{}", Refusal::Reading(fault)),
        Err(FilingFault::Writing(fault)) => println!(rt; "{}", Refusal::Writing(fault)),
    }
}
