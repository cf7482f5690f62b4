// Whether a text is one that may be cut into fields: its length, its characters, its lines.
ghost use Rattle.std.specs.Prelude.{◌≡◌, ℕ, ◌<◌, ◌≤◌, true, false, length, cond, IfSome, IfNone, find};
ghost use Rattle.std.specs.Option.{option_map};
ghost use Rattle.fields.specs.Lines.{lines};
ghost use Rattle.fields.specs.Placed.{placed, placed_line};
ghost use Rattle.fields.specs.Faults.{good_length, bad_at, alphabet_fault, bad_line, line_fault, fault_at, text_verdict, question_of, place_of};
ghost use Rattle.fields.specs.Laws.{Checked};

use crate::characters::in_set_x;
use crate::headers::read_header;
use crate::lines::{Line, Lines, is_break};

// The most bytes that a text may have.
pub const LONGEST: usize = 10_000;

// Why a text cannot be cut into fields.
#[derive(Clone, Copy, PartialEq, Eq, Debug)]
pub enum TextFault {
    // It is empty, or longer than 10,000 bytes.
    Length,
    // Here stands the first byte that is neither of set x nor half of a CR and LF directly together.
    Character(usize),
    // Here starts the first bad line.
    Line(usize),
}

impl TextFault {
    // The number of the question that the text fails.
    // Stays a number: the rules name each question by it, and it is what a caller is told.
    pub fn question(self) -> u8
        ensures { result ≡ question_of self }
    {
        match self {
            TextFault::Length => 2,
            TextFault::Character(_) => 3,
            TextFault::Line(_) => 4,
        }
    }

    // Where it fails it; 0 where no place stands for it.
    pub fn place(self) -> usize
        ensures { result ≡ place_of self }
    {
        match self {
            TextFault::Length => 0,
            TextFault::Character(at) => at,
            TextFault::Line(start) => start,
        }
    }
}

// Has the text from 1 to 10,000 bytes?
fn check_length(text: &[u8]) -> Result<(), TextFault>
    ensures { result ≡ cond (good_length text.now) (Ok tt) (Err TextFault.Length) }
{
    if (1..=LONGEST).contains(&text.len()) {
        Ok(())
    } else {
        Err(TextFault::Length)
    }
}

// Is the byte at `i` neither of set x nor half of a CR and LF directly together?
#[tactic(auto, unfolding(crate::specs::Faults::bad_at))]
fn is_bad_at(text: &[u8], i: usize) -> bool
    requires { i < length text.now }
    ensures { result ≡ bad_at text.now i }
{
    !(in_set_x(text[i]) || is_break(&text[i..]) || i > 0 && is_break(&text[i - 1..]))
}

// Where the first such byte stands.
fn first_bad_byte(text: &[u8]) -> Option<usize>
    ensures found { IfSome result (λ i. bad_at text.now i ≡ true) }
    ensures inside { IfSome result (λ i. i < length text.now) }
    ensures first { (k : ℕ) → IfSome result (λ i. k < i → bad_at text.now k ≡ false) }
    ensures none { IfNone result ((k : ℕ) → k < length text.now → bad_at text.now k ≡ false) }
{
    (0..text.len()).position(|i| is_bad_at(text, i))
}

// Is every byte one that may stand in a text?
#[tactic(auto, using(crate::proofs::Alphabet::alphabet_some, crate::proofs::Alphabet::alphabet_none))]
fn check_characters(text: &[u8]) -> Result<(), TextFault>
    ensures { result ≡ fault_at TextFault.Character (alphabet_fault text.now) (Ok tt) }
{
    match first_bad_byte(text) {
        Some(at) => Err(TextFault::Character(at)),
        None => Ok(()),
    }
}

// Is the line not as it should be? It is bad if no CR LF ends it, if it is empty or begins with '-', if its header is wrong though it
// begins with a colon, or if it is the first and begins no field.
fn is_bad_line(line: Line<'_>) -> bool
    ensures { result ≡ bad_line (placed_line line.entry) }
{
    let Some(bytes) = line.bytes else {
        return true;
    };
    match bytes.first() {
        None | Some(b'-') => true,
        Some(b':') => read_header(bytes).is_none(),
        Some(_) => line.start == 0,
    }
}

// Where the first bad line starts.
fn line_fault(text: &[u8]) -> Option<usize>
    ensures { result ≡ line_fault text.now }
{
    Lines::from_place(text, 0)
        .find(|line| is_bad_line(*line))
        .map(|line| line.start)
}

// Is every line good?
fn check_lines(text: &[u8]) -> Result<(), TextFault>
    ensures { result ≡ fault_at TextFault.Line (line_fault text.now) (Ok tt) }
{
    match line_fault(text) {
        Some(start) => Err(TextFault::Line(start)),
        None => Ok(()),
    }
}

// The first of the questions about length, characters and lines that the text fails. Each takes one pass.
fn first_fault(text: &[u8]) -> Result<(), TextFault>
    ensures { result ≡ text_verdict text.now }
{
    check_length(text)?;
    check_characters(text)?;
    check_lines(text)
}

// May the text be cut into fields? If not, answers the first question that it fails, and where. If so, its fields are the text.
pub fn check_text(text: &[u8]) -> Result<(), TextFault>
    ensures { Checked text.now result }
{
    first_fault(text)
}
