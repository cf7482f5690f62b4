// The lines before the opening of a meeting.
use crate::command::{Command, Preparation, Setup};
use crate::line::{Line, Lines};
use crate::mistake::{Mistake, Stop};
use crate::parse::parse;
use crate::refusal::Refusal;
use crate::view::{load, show};
use agenda::agenda::Agenda;
use agenda::faults::AgendaFault;
use agenda::question::Question;
use meeting::draft::Draft;
use std::io;
use std::rt::Files;

// The name and the questions of a meeting.
#[derive(Clone, Copy)]
pub struct Notice<'a> {
    pub event: &'a str,
    pub isin: &'a str,
    pub agenda: Agenda,
}

// The draft that is named, if any is, beside its notice, which the draft itself does not tell.
#[derive(Drop)]
pub struct Drafting<'a> {
    pub draft: Option<Draft>,
    pub notice: Notice<'a>,
}

// An opening: its line, what the meeting is opened on, and the lines behind it.
#[derive(Drop)]
pub struct Opening<'a> {
    pub line: Line<'a>,
    pub setup: Setup,
    pub behind: Lines<'a>,
}

impl<'a> Drafting<'a> {
    // No draft is named.
    pub fn new() -> Drafting<'a> {
        Drafting {
            draft: None,
            notice: Notice {
                event: "",
                isin: "",
                agenda: Agenda::new(),
            },
        }
    }

    // Names a draft in place of the one before. Refused, it leaves none.
    fn name(&mut self, event: &'a str, isin: &'a str) -> Result<(), AgendaFault> {
        self.draft = None;
        self.draft = Some(Draft::new(event.as_bytes(), isin.as_bytes())?);
        self.notice = Notice {
            event,
            isin,
            agenda: Agenda::new(),
        };
        Ok(())
    }

    // Adds a question to the draft and to its notice, which take the same ones.
    fn add(&mut self, question: Question) -> Result<Result<(), AgendaFault>, Mistake<'a>> {
        let Some(draft) = &mut self.draft else {
            return Err(Mistake::NoDraft);
        };
        let _ = self.notice.agenda.fill(question);
        Ok(draft.add(question))
    }

    // Carries out a line. If it is the opening, that is left to do.
    fn carry_out(
        &mut self,
        rt: &(impl Files + Print + AllocGlobal),
        line: &'a str,
    ) -> Result<Option<Setup>, Mistake<'a>> {
        match parse(line)? {
            Command::Show(view, file) => {
                let text = load(rt, file)?;
                show(rt, line, view, text.as_slice())?;
            }
            Command::Prepare(Preparation::Draft(event, isin)) => {
                tell(rt, line, "named", self.name(event, isin))?;
            }
            Command::Prepare(Preparation::Question(question)) => {
                tell(rt, line, "added", self.add(question)?)?;
            }
            Command::Prepare(Preparation::Open(setup)) => return Ok(Some(setup)),
            Command::Proceed(_) => return Err(Mistake::NoMeeting),
        }
        Ok(None)
    }

    // Carries out the lines up to the first opening, if there is one.
    pub fn prepare(
        &mut self,
        rt: &(impl Files + Print + AllocGlobal),
        mut lines: Lines<'a>,
    ) -> Result<Option<Opening<'a>>, Stop<'a>> {
        for line in lines.by_ref().filter(|line| !line.is_passed_over()) {
            if let Some(setup) = line.or_stop(self.carry_out(rt, line.text))? {
                return Ok(Some(Opening {
                    line,
                    setup,
                    behind: lines,
                }));
            }
        }
        Ok(None)
    }
}

// Prints the line and its answer.
fn tell(
    rt: &impl Print,
    line: &str,
    done: &str,
    verdict: Result<(), AgendaFault>,
) -> io::Result<()> {
    match verdict {
        Ok(()) => println!(rt; "{line}: {done}"),
        Err(fault) => { println!(rt; "{line}: {}", Refusal::Agenda(fault)) }
    }
}
