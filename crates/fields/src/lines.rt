// The lines of a text: pieces that CR LF ends.
ghost use Rattle.std.specs.Prelude.{◌≡◌, ℕ, ◌+◌, ◌<◌, ◌≤◌, true, false, IfSome, IfNone, length, drop, MatchOption};
ghost use Rattle.fields.specs.Lines.{rest as unended, lines, LineAt, break_at};
ghost use Rattle.fields.specs.Placed.{placed, placed_line, left_lines, header_in, ends};
ghost use Rattle.std.specs.Iterator.{YieldsFirstBy, item_count};

use crate::headers::{Header, read_header};

// Does a CR LF stand at the start?
pub(crate) fn is_break(rest: &[u8]) -> bool
    ensures { result ≡ break_at rest.now 0 }
{
    matches!(rest, [b'\r', b'\n', ..])
}

// Where the first CR LF stands.
fn first_break(text: &[u8]) -> Option<usize>
    ensures found { IfSome result (λ n. break_at text.now n ≡ true) }
    ensures inside { IfSome result (λ n. n + 2 ≤ length text.now) }
    ensures first { (k : ℕ) → IfSome result (λ n. k < n → break_at text.now k ≡ false) }
    ensures none { IfNone result ((k : ℕ) → k + 2 ≤ length text.now → break_at text.now k ≡ false) }
{
    text.windows(2).position(is_break)
}

// The line that starts at `start`, without its CR LF. None where no CR LF follows.
fn line_at(text: &[u8], start: usize) -> Option<&[u8]>
    ensures { MatchOption result (lines (drop start text.now) ≡ unended (drop start text.now)) (λ l. LineAt text.now start l.now) }
{
    let rest = text.get(start..)?;
    let len = first_break(rest)?;
    Some(&rest[..len])
}

// A line of a text: where it starts, and its bytes without CR LF; none where no CR LF ends it.
#[derive(Clone, Copy, Drop)]
pub(crate) struct Line<'a> {
    pub start: usize,
    pub bytes: Option<&'a [u8]>,
}

impl Line<'_> {
    // What its header says, where it begins with a right one.
    pub(crate) fn header(self) -> Option<Header>
        ensures value { result ≡ header_in (placed_line self.entry) }
        ensures within { IfSome result (λ h. IfSome self.entry.bytes (λ l. h.len ≤ length l.now)) }
    {
        read_header(self.bytes?)
    }

    // Does a field before it not go on with it? It has a header, or no CR LF ends it.
    pub(crate) fn ends_field(self) -> bool
        ensures { result ≡ ends (placed_line self.entry) }
    {
        self.bytes.is_none_or(|line| read_header(line).is_some())
    }
}

// The lines of a text, to be gone through by a `for`.
#[derive(Drop)]
pub(crate) struct Lines<'a> {
    text: &'a [u8],
    at: usize,
}

impl<'a> Lines<'a> {
    // The lines from place `at` on, where one starts.
    pub(crate) fn from_place(text: &'a [u8], at: usize) -> Lines<'a>
        ensures { left_lines result ≡ placed at (lines (drop at text.now)) }
    {
        Lines { text, at }
    }
}

impl<'a> Iterator for Lines<'a> {
    type Item = Line<'a>;

    ghost next_gives = { YieldsFirstBy placed_line left_lines };

    ghost remaining = { item_count left_lines };

    fn next(&mut self) -> Option<Line<'a>> {
        if self.at >= self.text.len() {
            return None;
        }
        let start = self.at;
        let bytes = line_at(self.text, start);
        self.at = match bytes {
            Some(line) => start + (line.len() + 2),
            None => self.text.len(),
        };
        Some(Line { start, bytes })
    }
}
