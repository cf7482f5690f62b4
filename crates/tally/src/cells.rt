// The numbers of a ballot, by question and cell.
ghost use Rattle.std.specs.Prelude.{◌≡◌, ◌+◌, ◌%◌, ◌^◌, ◌-◌, ◌<◌, [], length, replicate, true, slice_index, slice_index_or, slice_set, if◌then◌else◌, Some, None};
ghost use Rattle.tally.specs.Ballot.{figures, answered, on_table, shifted};

// 16 cells for each of 32 questions.
#[derive(Drop)]
pub struct Cells {
    numbers: [[u64; 16]; 32],
}

impl Cells {
    pub fn new() -> Cells
        ensures { result.numbers ≡ replicate 32 (replicate 16 0) }
    {
        Cells {
            numbers: [[0; 16]; 32],
        }
    }

    // None off the table.
    pub fn read(&self, question: u8, cell: u8) -> Option<u64>
        ensures { result ≡ answered (figures self.now.numbers) question cell }
    {
        let (row, column) = position(question, cell)?;
        let cells = &self.numbers[row];
        Some(cells[column])
    }

    // Adds to one number, modulo 2^64; off the table there is none.
    pub fn shift(&mut self, question: u8, cell: u8, by: u64)
        ensures within { on_table question cell ≡ true → (question - 1 < length self.old.numbers) × (cell - 1 < length (slice_index_or self.old.numbers (question - 1) [])) }
        ensures after { self.new.numbers ≡ shifted self.old.numbers question cell by }
    {
        if let Some((row, column)) = position(question, cell) {
            let cells = &mut self.numbers[row];
            cells[column] = cells[column].wrapping_add(by);
        }
    }
}

// Where a cell of a question lies.
fn position(question: u8, cell: u8) -> Option<(usize, usize)>
    ensures { result ≡ (if on_table question cell then Some (question - 1, cell - 1) else None) }
{
    match (question, cell) {
        (1..=32, 1..=16) => Some((usize::from(question - 1), usize::from(cell - 1))),
        _ => None,
    }
}
