// The order of a text's fields, by their keys.
ghost use Rattle.std.specs.Prelude.{◌≡◌, ℕ, Option as Maybe};
ghost use Rattle.sheet.specs.Keys.{key_from};
ghost use Rattle.sheet.specs.Order.{next_row, order_fault};
ghost use Rattle.sheet.specs.Laws.{ReadsSentences, KeyJudged};

use crate::interface::Sheet;
use crate::keys::{Key, find_row, key_of};
use crate::steps::{follows, may_end};
use fields::walk::Fields;

// The row that has the key, if it may come next, where `last` is the row read last.
fn next_row<S: Sheet>(sheet: &S, last: Option<usize>, key: Key<'_>) -> Option<usize>
    ensures { result ≡ next_row (S.rows sheet.now) last (key_from key.entry) }
{
    find_row(sheet, key).filter(|row| follows(sheet, last, *row))
}

// The start of the first field that has no row which may come next; else the length of the text, where it may not end there.
fn first_fault<S: Sheet>(sheet: &S, text: &[u8]) -> Option<usize>
    ensures { result ≡ order_fault (S.rows sheet.now) text.now }
{
    // Stays a loop: it carries the row read last, and `try_fold` with a place for an error is no plainer.
    let mut last = None;
    for field in Fields::of(text) {
        let Some(row) = next_row(sheet, last, key_of(text, field)) else {
            return Some(field.start);
        };
        last = Some(row);
    }
    (!may_end(sheet, last)).then_some(text.len())
}

// What is wrong with the order of a text's fields, by their keys. Nothing, where it is a sentence of the sheet; else the start of the first
// field with which no sentence goes on; else the length of the text, where it ends too early.
pub fn order_fault<S: Sheet>(sheet: &S, text: &[u8]) -> Option<usize>
    ensures value { result ≡ order_fault (S.rows sheet.now) text.now }
    ensures judged { KeyJudged (S.rows sheet.now) text.now result }
    ensures only { (s : Maybe ℕ) → KeyJudged (S.rows sheet.now) text.now s → s ≡ result }
    ensures reads { ReadsSentences (S.rows sheet.now) }
{
    first_fault(sheet, text)
}
