// What a line says. Its words are parted by single spaces.
use crate::command::{Command, Fronts, List, Preparation, Proceeding, Setup, View};
use crate::mistake::Mistake;
use agenda::question::Question;
use conduct::call::Question as Inquiry;
use format::votes::VoteKind;

// How many entries a field table has where the command does not say.
const ENTRIES: usize = 1024;

// The command that a line gives.
pub fn parse(line: &str) -> Result<Command<'_>, Mistake<'static>> {
    match line {
        "total" => Ok(Command::Proceed(Proceeding::Ask(Inquiry::Total))),
        "close" => Ok(Command::Proceed(Proceeding::Close)),
        "minute" => Ok(Command::Proceed(Proceeding::Minute)),
        _ => {
            let (word, rest) = line.split_once(' ').unwrap_or((line, ""));
            parse_words(word, rest)
        }
    }
}

fn parse_words<'a>(word: &str, rest: &'a str) -> Result<Command<'a>, Mistake<'static>> {
    match word {
        "draft" => parse_draft(rest).ok_or(Mistake::Draft),
        "question" => parse_question(rest).ok_or(Mistake::Question),
        "open" => parse_open(rest).ok_or(Mistake::Open),
        "take" => parse_take(rest).ok_or(Mistake::Take),
        "state" => parse_state(rest).ok_or(Mistake::State),
        "figure" => parse_figure(rest).ok_or(Mistake::Figure),
        "total" | "close" | "minute" => Err(Mistake::Alone),
        "fields" => parse_fields(rest).ok_or(Mistake::Fields),
        "read" => parse_read(rest).ok_or(Mistake::Read),
        "rewrite" => parse_rewrite(rest).ok_or(Mistake::Rewrite),
        _ => Err(Mistake::Unknown),
    }
}

// The ISIN is the last word; the event is all before it, and may have spaces.
fn parse_draft(rest: &str) -> Option<Command<'_>> {
    let (event, isin) = rest.rsplit_once(' ')?;
    Some(Command::Prepare(Preparation::Draft(event, isin)))
}

fn parse_question(rest: &str) -> Option<Command<'_>> {
    let mut words = rest.split(' ');
    let number = small(words.next()?)?;
    let question = match words.next()? {
        "ordinary" => Question {
            number,
            kind: VoteKind::Ordinary,
            multiplier: 1,
            candidates: 0,
        },
        "cumulative" => Question {
            number,
            kind: VoteKind::Cumulative,
            multiplier: small(words.next()?)?,
            candidates: small(words.next()?)?,
        },
        _ => return None,
    };
    if words.next().is_some() {
        return None;
    }
    Some(Command::Prepare(Preparation::Question(question)))
}

fn parse_open(rest: &str) -> Option<Command<'_>> {
    let mut words = rest.split(' ');
    let setup = Setup {
        list: list_named(words.next()?)?,
        capacity: size(words.next()?)?,
        fronts: Fronts::try_from(size(words.next()?)?).ok()?,
        records: size(words.next()?)?,
        entries: size(words.next()?)?,
    };
    if words.next().is_some() {
        return None;
    }
    Some(Command::Prepare(Preparation::Open(setup)))
}

fn list_named(word: &str) -> Option<List> {
    match word {
        "arrival" => Some(List::Arrival),
        "ordered" => Some(List::Ordered),
        _ => None,
    }
}

fn parse_take(rest: &str) -> Option<Command<'_>> {
    let (number, file) = rest.split_once(' ')?;
    let number = message_number(number)?;
    Some(Command::Proceed(Proceeding::Take(number, one_word(file)?)))
}

// The reference is the rest of the line, and may have spaces.
fn parse_state(rest: &str) -> Option<Command<'_>> {
    if rest.is_empty() {
        return None;
    }
    let inquiry = Inquiry::State(rest.as_bytes());
    Some(Command::Proceed(Proceeding::Ask(inquiry)))
}

fn parse_figure(rest: &str) -> Option<Command<'_>> {
    let (question, cell) = rest.split_once(' ')?;
    let inquiry = Inquiry::Figure(small(question)?, small(cell)?);
    Some(Command::Proceed(Proceeding::Ask(inquiry)))
}

fn parse_fields(rest: &str) -> Option<Command<'_>> {
    Some(Command::Show(View::Fields, one_word(rest)?))
}

// Its numbers, and those of `rewrite`, may have a `+` before the digits.
fn parse_read(rest: &str) -> Option<Command<'_>> {
    let (number, behind) = rest.split_once(' ')?;
    let number = number.parse::<u16>().ok()?;
    let (file, entries) = match behind.split_once(' ') {
        Some((file, entries)) => (file, entries.parse::<usize>().ok()?),
        None => (behind, ENTRIES),
    };
    Some(Command::Show(View::Table(number, entries), one_word(file)?))
}

fn parse_rewrite(rest: &str) -> Option<Command<'_>> {
    let (number, behind) = rest.split_once(' ')?;
    let number = number.parse::<u16>().ok()?;
    let (file, room) = behind.split_once(' ')?;
    let room = room.parse::<usize>().ok()?;
    Some(Command::Show(View::Filing(number, room), one_word(file)?))
}

// The one word that this is.
fn one_word(rest: &str) -> Option<&str> {
    if rest.is_empty() || rest.contains(' ') {
        return None;
    }
    Some(rest)
}

// A whole number, in digits alone.
fn whole(word: &str) -> Option<u64> {
    if word.starts_with('+') {
        return None;
    }
    word.parse::<u64>().ok()
}

fn message_number(word: &str) -> Option<u16> {
    u16::try_from(whole(word)?).ok()
}

fn size(word: &str) -> Option<usize> {
    usize::try_from(whole(word)?).ok()
}

// A number of the agenda. It has none of 255 and above, so those are one.
fn small(word: &str) -> Option<u8> {
    Some(u8::try_from(whole(word)?).unwrap_or(u8::MAX))
}
