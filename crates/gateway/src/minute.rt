// The minute of a meeting: the whole count, for people.
use crate::answer::Answers;
use crate::before::Notice;
use crate::command::Fronts;
use crate::gather::Phase;
use agenda::agenda::Agenda;
use agenda::question::{MOST_QUESTIONS, Question};
use conduct::call::{Call, Question as Inquiry};
use format::votes::VoteKind;
use std::alloc::AllocError;
use std::io;

// What the minute tells of: the name and the agenda of the meeting, and the fronts of its register.
#[derive(Clone, Copy)]
pub struct Minute<'a> {
    event: &'a str,
    isin: &'a str,
    agenda: Agenda,
    fronts: Fronts,
}

// How many cells a question has.
fn cells(question: Question) -> u8 {
    match question.kind {
        VoteKind::Ordinary => 3,
        VoteKind::Cumulative => question.candidates,
    }
}

fn ask_question(calls: &mut Vec<Call<'_>>, question: Question) -> Result<(), AllocError> {
    for cell in 1..=cells(question) {
        calls.push(Call::Ask(Inquiry::Figure(question.number, cell)))?;
    }
    Ok(())
}

fn print_question(rt: &impl Print, question: Question, answers: &mut Answers) -> io::Result<()> {
    let number = question.number;
    match question.kind {
        VoteKind::Ordinary => {
            let yes = answers.next();
            let no = answers.next();
            let abstain = answers.next();
            println!(rt; "  question {number}, ordinary: yes {yes}, no {no}, abstain {abstain}")
        }
        VoteKind::Cumulative => {
            print!(rt;
                "  question {number}, cumulative times {}:",
                question.multiplier
            )?;
            print_candidates(rt, question.candidates, answers)
        }
    }
}

fn print_candidates(rt: &impl Print, candidates: u8, answers: &mut Answers) -> io::Result<()> {
    for candidate in 1..=candidates {
        let end = if candidate < candidates { "," } else { "\n" };
        print!(rt; " candidate {candidate} {}{end}", answers.next())?;
    }
    Ok(())
}

fn ask_questions(calls: &mut Vec<Call<'_>>, agenda: &Agenda) -> Result<(), AllocError> {
    for question in (1..=MOST_QUESTIONS as u8).filter_map(|number| agenda.question(number)) {
        ask_question(calls, question)?;
    }
    Ok(())
}

fn print_questions(rt: &impl Print, agenda: &Agenda, answers: &mut Answers) -> io::Result<()> {
    for question in (1..=MOST_QUESTIONS as u8).filter_map(|number| agenda.question(number)) {
        print_question(rt, question, answers)?;
    }
    Ok(())
}

fn print_sums(rt: &impl Print, fronts: Fronts, answers: &mut Answers) -> io::Result<()> {
    println!(rt; "  control total {}", answers.next())?;
    println!(rt; "  standing {}", answers.next())?;
    for front in 1..=usize::from(fronts) {
        println!(rt; "  front {front} asked below {} times", answers.next())?;
    }
    Ok(())
}

impl<'a> Minute<'a> {
    pub fn of(notice: Notice<'a>, fronts: Fronts) -> Minute<'a> {
        Minute {
            event: notice.event,
            isin: notice.isin,
            agenda: notice.agenda,
            fronts,
        }
    }

    // Asks all that the minute tells, in that order.
    pub fn ask(&self, calls: &mut Vec<Call<'_>>) -> Result<(), AllocError> {
        ask_questions(calls, &self.agenda)?;
        calls.push(Call::Ask(Inquiry::Total))?;
        calls.push(Call::Ask(Inquiry::Standing))?;
        for depth in 0..usize::from(self.fronts) {
            calls.push(Call::Ask(Inquiry::Asked(depth)))?;
        }
        Ok(())
    }

    // Prints what was answered.
    pub fn print(&self, rt: &impl Print, phase: Phase, answers: &mut Answers) -> io::Result<()> {
        print_heading(rt, self.event, self.isin, phase)?;
        print_questions(rt, &self.agenda, answers)?;
        print_sums(rt, self.fronts, answers)
    }
}

fn print_heading(rt: &impl Print, event: &str, isin: &str, phase: Phase) -> io::Result<()> {
    println!(rt; "{event} {isin}, {phase}")
}
