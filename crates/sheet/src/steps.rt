// The order of rows: which row may follow which, and where a text may end.
ghost use Rattle.std.specs.Prelude.{◌≡◌, ◌<◌, ◌≤◌, drop, length};
ghost use Rattle.sheet.specs.Rows.{row_of};
ghost use Rattle.sheet.specs.Steps.{passing, scan, closing, ends, repeats, follows as may_follow, may_end};

use crate::interface::Sheet;
use crate::rows::Row;
use crate::walk::Rows;

// How many blocks are open behind `row`, where `depth` are before it and are being passed over. None where it may not be passed over.
fn passed(depth: usize, row: Row) -> Option<usize>
    requires { depth < 64 }
    ensures { result ≡ passing depth (row_of row) }
{
    match row {
        Row::Open(mark, _) => (depth > 0 || mark.may_miss()).then_some(depth + 1),
        Row::Close(_) => depth.checked_sub(1),
        Row::Field(field) => (depth > 0 || field.mark.may_miss()).then_some(depth),
    }
}

// Can row `next` come next, from the place before row `from`? What may be missed is passed over; a closing row stops the search.
// The end of the text is the row behind the last.
#[tactic(auto, using(crate::proofs::Searches::reaching_from))]
fn reaches<S: Sheet>(sheet: &S, from: usize, next: usize) -> bool
    requires { from ≤ length (S.rows sheet.now) }
    ensures { result ≡ scan (S.rows sheet.now) from next }
{
    // Stays a loop: it carries how many blocks are open, and `try_fold` with two ways out is no plainer.
    let mut depth = 0;
    for (i, row) in Rows::from_number(sheet, from) {
        if depth == 0 && i == next {
            return true;
        }
        let Some(left) = passed(depth, row) else {
            return false;
        };
        depth = left;
    }
    sheet.len() == next
}

// The closing row of the block whose rows begin at `from`.
#[tactic(auto, using(crate::proofs::Searches::closes_from))]
fn block_end<S: Sheet>(sheet: &S, from: usize) -> usize
    requires { from ≤ length (S.rows sheet.now) }
    ensures { result ≡ closing 0 (drop from (S.rows sheet.now)) from }
{
    // Stays a loop: it carries how many blocks are open, and `try_fold` with a row's number for an error is no plainer.
    let mut depth: usize = 0;
    for (i, row) in Rows::from_number(sheet, from) {
        match row {
            Row::Open(_, _) => depth += 1,
            Row::Close(_) if depth == 0 => return i,
            Row::Close(_) => depth -= 1,
            Row::Field(_) => {}
        }
    }
    sheet.len()
}

// The last row of the part that row `first` begins: the closing row of a block, else the row itself.
#[tactic(auto, using(crate::proofs::Scans::ends_read))]
fn part_end<S: Sheet>(sheet: &S, first: usize) -> usize
    ensures { result ≡ ends (drop first (S.rows sheet.now)) first }
{
    match sheet.row(first) {
        Some(Row::Open(_, _)) => block_end(sheet, first + 1),
        Some(Row::Close(_)) => first,
        Some(Row::Field(_)) => first,
        None => first,
    }
}

// May the part that row `first` begins stand more than once?
#[tactic(auto, using(crate::proofs::Scans::repeats_read))]
fn part_repeats<S: Sheet>(sheet: &S, first: usize) -> bool
    ensures { result ≡ repeats (drop first (S.rows sheet.now)) }
{
    match sheet.row(first) {
        Some(Row::Open(mark, _)) => mark.may_repeat(),
        Some(Row::Field(field)) => field.mark.may_repeat(),
        Some(Row::Close(_)) => false,
        None => false,
    }
}

// May row `next` come next, where `last` is the row read last, if any? No where either is not a row.
#[tactic(auto, using(crate::proofs::Scans::follows_on, crate::proofs::Scans::follows_again, crate::proofs::Scans::follows_not))]
pub fn follows<S: Sheet>(sheet: &S, last: Option<usize>, next: usize) -> bool
    ensures { result ≡ may_follow (S.rows sheet.now) last next }
{
    let len = sheet.len();
    next < len
        && match last {
            None => reaches(sheet, 0, next),
            Some(row) => {
                row < len
                    && (reaches(sheet, row + 1, next)
                        || part_repeats(sheet, next) && part_end(sheet, next) == row)
            }
        }
}

// May the text end where `last` is the row read last, if any?
#[tactic(auto, using(crate::proofs::Scans::end_some))]
pub fn may_end<S: Sheet>(sheet: &S, last: Option<usize>) -> bool
    ensures { result ≡ may_end (S.rows sheet.now) last }
{
    let len = sheet.len();
    match last {
        None => reaches(sheet, 0, len),
        Some(row) => row < len && reaches(sheet, row + 1, len),
    }
}
