// The lines of a day file.
ghost use Rattle.std.specs.Prelude.{length};
ghost use Rattle.std.specs.Iterator.{at_most};
ghost use Rattle.std.specs.Str.Iter.{lines_rest};

use crate::mistake::{Mistake, Stop};
use std::str;

// A line, and its number from 1.
#[derive(Clone, Copy)]
pub struct Line<'a> {
    pub number: usize,
    pub text: &'a str,
}

impl<'a> Line<'a> {
    // Is it passed over? So where it is empty, and where it begins with a `#`.
    pub fn is_passed_over(&self) -> bool {
        self.text.is_empty() || self.text.starts_with('#')
    }

    pub fn stop(self, mistake: Mistake<'a>) -> Stop<'a> {
        Stop {
            line: self.number,
            mistake,
        }
    }

    // What carrying out the line gave; or the stop at it.
    pub fn or_stop<T>(self, res: Result<T, Mistake<'a>>) -> Result<T, Stop<'a>> {
        // Stays a match: a closure for `map_err` would give a result at this line's lifetime, which the checker does not cover.
        match res {
            Ok(value) => Ok(value),
            Err(mistake) => Err(self.stop(mistake)),
        }
    }
}

// The lines of a day file that are left.
#[derive(Drop)]
pub struct Lines<'a> {
    texts: str::Lines<'a>,
    // The number of the line before them.
    number: usize,
}

impl<'a> Lines<'a> {
    pub fn of(day: &'a str) -> Lines<'a> {
        Lines {
            texts: day.lines(),
            number: 0,
        }
    }
}

impl<'a> Iterator for Lines<'a> {
    type Item = Line<'a>;

    ghost remaining = { λ s. at_most (length (lines_rest s.texts)) };

    fn next(&mut self) -> Option<Line<'a>> {
        let text = self.texts.next()?;
        self.number = self.number.saturating_add(1);
        Some(Line {
            number: self.number,
            text,
        })
    }
}
