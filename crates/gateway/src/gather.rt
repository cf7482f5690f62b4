// The lines behind the opening. They are gathered before any is carried out, for one list of calls conducts the meeting.
use crate::command::{Command, Proceeding, View};
use crate::line::{Line, Lines};
use crate::mistake::{Mistake, Stop};
use crate::parse::parse;
use crate::view::load;
use conduct::call::Question as Inquiry;
use std::fmt;
use std::rt::Files;

// A line, and what it asks for.
#[derive(Drop)]
pub struct Step<'a> {
    pub line: Line<'a>,
    pub task: Task<'a>,
}

// What a line asks for, with the text of the file that it names.
#[derive(Drop)]
pub enum Task<'a> {
    Show(View, Vec<u8>),
    Take(u16, Vec<u8>),
    Ask(Inquiry<'a>),
    Close,
    // Print the whole count, at this time of the meeting.
    Minute(Phase),
}

// Takes a meeting messages, or is it over?
#[derive(Clone, Copy)]
pub enum Phase {
    Open,
    Closed,
}

impl fmt::Display for Phase {
    fn fmt<W: fmt::Write>(&self, f: &mut fmt::Formatter<W>) -> fmt::Result {
        match *self {
            Phase::Open => f.write_str("open"),
            Phase::Closed => f.write_str("closed"),
        }
    }
}

// The steps, as many as there are before the first line in error, and that error if there is one.
#[derive(Drop)]
pub struct Gathering<'a> {
    pub steps: Vec<Step<'a>>,
    pub phase: Phase,
    pub stop: Option<Stop<'a>>,
}

impl<'a> Gathering<'a> {
    // Gathers the lines behind an opening.
    pub fn of(rt: &(impl Files + AllocGlobal), lines: Lines<'a>) -> Gathering<'a> {
        let mut gathering = Gathering {
            steps: Vec::new(rt.alloc()),
            phase: Phase::Open,
            stop: None,
        };
        for line in lines.filter(|line| !line.is_passed_over()) {
            if let Err(mistake) = gathering.add(rt, line) {
                gathering.stop = Some(line.stop(mistake));
                break;
            }
        }
        gathering
    }

    fn add(&mut self, rt: &(impl Files + AllocGlobal), line: Line<'a>) -> Result<(), Mistake<'a>> {
        let task = task_of(rt, line.text, self.phase)?;
        if let Task::Close = task {
            self.phase = Phase::Closed;
        }
        self.steps.push(Step { line, task })?;
        Ok(())
    }
}

fn task_of<'a>(
    rt: &(impl Files + AllocGlobal),
    line: &'a str,
    phase: Phase,
) -> Result<Task<'a>, Mistake<'a>> {
    match parse(line)? {
        Command::Show(view, file) => Ok(Task::Show(view, load(rt, file)?)),
        Command::Prepare(_) => Err(Mistake::AlreadyOpen),
        Command::Proceed(proceeding) => proceed(rt, proceeding, phase),
    }
}

fn proceed<'a>(
    rt: &(impl Files + AllocGlobal),
    proceeding: Proceeding<'a>,
    phase: Phase,
) -> Result<Task<'a>, Mistake<'a>> {
    match (proceeding, phase) {
        (Proceeding::Take(_, _) | Proceeding::Close, Phase::Closed) => Err(Mistake::AlreadyClosed),
        (Proceeding::Take(number, file), Phase::Open) => Ok(Task::Take(number, load(rt, file)?)),
        (Proceeding::Close, Phase::Open) => Ok(Task::Close),
        (Proceeding::Ask(inquiry), _) => Ok(Task::Ask(inquiry)),
        (Proceeding::Minute, _) => Ok(Task::Minute(phase)),
    }
}
