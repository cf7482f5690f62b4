// A meeting carried out: the lines behind its opening gathered, all their calls made at once, and the answers printed line by line.
use crate::answer::Answers;
use crate::before::{Notice, Opening};
use crate::command::Setup;
use crate::gather::{Gathering, Phase, Step, Task};
use crate::minute::Minute;
use crate::mistake::{Mistake, Stop};
use crate::pile::answer_all;
use crate::view::show;
use conduct::call::Call;
use meeting::draft::Draft;
use std::alloc::{AllocError, Global};
use std::io;
use std::rt::Files;

// The calls that the steps ask for.
fn calls_of<'a>(
    heap: Global,
    steps: &'a [Step<'a>],
    minute: &Minute<'_>,
) -> Result<Vec<Call<'a>>, AllocError> {
    let mut calls = Vec::new(heap);
    for step in steps {
        match &step.task {
            Task::Show(_, _) => {}
            Task::Take(number, text) => calls.push(Call::Take(*number, text.as_slice()))?,
            Task::Ask(inquiry) => calls.push(Call::Ask(*inquiry))?,
            Task::Close => calls.push(Call::Close)?,
            Task::Minute(_) => minute.ask(&mut calls)?,
        }
    }
    Ok(calls)
}

// Opens the meeting and makes the calls of the steps.
fn answers_to(
    heap: Global,
    draft: Draft,
    setup: Setup,
    steps: &[Step<'_>],
    minute: &Minute<'_>,
) -> Result<Answers, AllocError> {
    let calls = calls_of(heap, steps, minute)?;
    Ok(Answers::new(answer_all(heap, draft, setup, &calls)?))
}

fn print_answer(rt: &impl Print, line: &str, answers: &mut Answers) -> io::Result<()> {
    println!(rt; "{line}: {}", answers.next())
}

fn print_minute(
    rt: &impl Print,
    line: &str,
    minute: &Minute<'_>,
    phase: Phase,
    answers: &mut Answers,
) -> io::Result<()> {
    print!(rt; "{line}: ")?;
    minute.print(rt, phase, answers)
}

// Prints a line and what came of it.
fn print_step(
    rt: &(impl Print + AllocGlobal),
    step: &Step<'_>,
    minute: &Minute<'_>,
    answers: &mut Answers,
) -> Result<(), Mistake<'static>> {
    let line = step.line.text;
    match &step.task {
        Task::Show(view, text) => show(rt, line, *view, text.as_slice())?,
        Task::Minute(phase) => print_minute(rt, line, minute, *phase, answers)?,
        Task::Take(_, _) | Task::Ask(_) | Task::Close => print_answer(rt, line, answers)?,
    }
    Ok(())
}

// Carries out the opening of a meeting and all lines behind it.
pub fn meet<'a>(
    rt: &(impl Files + Print + AllocGlobal),
    draft: Draft,
    notice: Notice<'a>,
    opening: Opening<'a>,
) -> Result<(), Stop<'a>> {
    let Opening {
        line,
        setup,
        behind,
    } = opening;
    let minute = Minute::of(notice, setup.fronts);
    let gathering = Gathering::of(rt, behind);
    let Ok(mut answers) = answers_to(rt.alloc(), draft, setup, &gathering.steps, &minute) else {
        return Err(line.stop(Mistake::NoMemory));
    };
    if println!(rt; "{}: open", line.text).is_err() {
        return Err(line.stop(Mistake::NoOutput));
    }
    for step in &gathering.steps {
        step.line
            .or_stop(print_step(rt, step, &minute, &mut answers))?;
    }
    gathering.stop.map_or(Ok(()), Err)
}
