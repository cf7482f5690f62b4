// A day file carried out.
use crate::before::Drafting;
use crate::line::Lines;
use crate::mistake::{Mistake, Stop};
use crate::sitting::meet;
use std::io;
use std::rt::Files;

// The program ended before the day did; what stopped it is printed already.
#[derive(Drop)]
pub struct Stopped;

impl From<io::Error> for Stopped {
    fn from(_e: io::Error) -> Stopped {
        Stopped
    }
}

// Carries out every line, up to the first in error.
pub fn carry_out(rt: &(impl Files + Print + AllocGlobal), day: &str) -> Result<(), Stopped> {
    carry_out_lines(rt, Lines::of(day)).or_else(|stop| report(rt, stop))
}

// Prints what stopped the day.
fn report(rt: &impl Print, stop: Stop<'_>) -> Result<(), Stopped> {
    println!(rt; "{stop}")?;
    Err(Stopped)
}

fn carry_out_lines<'a>(
    rt: &(impl Files + Print + AllocGlobal),
    lines: Lines<'a>,
) -> Result<(), Stop<'a>> {
    let mut drafting = Drafting::new();
    let Some(opening) = drafting.prepare(rt, lines)? else {
        return Ok(());
    };
    let Drafting { draft, notice } = drafting;
    let draft = opening.line.or_stop(draft.ok_or(Mistake::NoDraft))?;
    meet(rt, draft, notice, opening)
}
