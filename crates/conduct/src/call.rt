// The calls of a meeting and their answers, as values.
use agenda::faults::AgendaFault;
use book::acting::Taken as Deed;
use book::faults::BookFault;
use book::finding::Finding;

// What a meeting can be asked, before its closing and after.
#[derive(Clone, Copy)]
pub enum Question<'a> {
    // What stands under this reference?
    State(&'a [u8]),
    // The figure of a cell of a question.
    Figure(u8, u8),
    // The control total.
    Total,
    // How many stand?
    Standing,
    // How often has the front at this depth asked below?
    Asked(usize),
}

#[derive(Clone, Copy)]
pub enum Call<'a> {
    // Take the text as the message of this number.
    Take(u16, &'a [u8]),
    Ask(Question<'a>),
    // Close the meeting. Only questions can follow.
    Close,
}

// What a question is answered.
#[derive(Clone, Copy)]
pub enum Reply {
    State(Option<Finding>),
    Figure(Result<Option<u64>, AgendaFault>),
    Total(Option<u64>),
    Standing(usize),
    Asked(Option<u64>),
}

#[derive(Clone, Copy)]
pub enum Answer {
    // The message was taken, and did this; or was refused.
    Taken(Result<Deed, BookFault>),
    Told(Reply),
    Closed,
}
