// The ballot: a figure for each cell of each question.
ghost use Rattle.std.specs.Prelude.{◌≡◌, ◌-◌, ◌%◌, ◌^◌, None};
ghost use Rattle.tally.specs.Ballot.{Figures, ballot, figures, answered, ballot_weight};
ghost use Rattle.tally.specs.Laws.{FigureCounts};
ghost use Rattle.std.proofs.Common.{lit<};
ghost use Rattle.tally.specs.Residues.{modulo_group, each_group};

use crate::cells::Cells;
use crate::interface::Tally;
use crate::vote::Vote;

// A sum for each of 32 questions and 16 cells, modulo 2^64.
#[derive(Drop)]
pub struct Ballot {
    cells: Cells,
}

impl Ballot {
    pub fn new() -> Ballot
        ensures { figures result.cells.numbers ≡ ballot.neutral }
    {
        Ballot {
            cells: Cells::new(),
        }
    }

    // The figure of a cell of a question; none off the table.
    pub fn figure(&self, question: u8, cell: u8) -> Option<u64>
        ensures value { result ≡ answered (figures self.now.cells.numbers) question cell }
        ensures counts { FigureCounts (figures self.now.cells.numbers) question cell result }
    {
        self.cells.read(question, cell)
    }
}

// What takes a quantity back when it is added.
fn opposite(quantity: u64) -> u64
    ensures { result ≡ (2 ^ 64 - quantity) % 2 ^ 64 }
{
    quantity.wrapping_neg()
}

impl Tally for Ballot {
    ghost Value = { Figures };

    ghost value = { λ b. figures b.cells.numbers };

    ghost scale = { λ _. ballot };

    ghost figure_in = { answered };

    ghost total_in = { λ _. None };

    ghost group = { λ t. each_group _ (λ question. each_group _ (λ cell. modulo_group (2 ^ 64) (lit< tt) (λ v. ballot_weight v question cell))) };

    fn add(&mut self, vote: Vote) {
        self.cells.shift(vote.question, vote.cell, vote.quantity);
    }

    fn take_back(&mut self, vote: Vote) {
        self.cells
            .shift(vote.question, vote.cell, opposite(vote.quantity));
    }

    fn clear(&mut self) {
        *self = Ballot::new();
    }

    fn tell_figure(&self, question: u8, cell: u8) -> Option<u64> {
        self.figure(question, cell)
    }

    fn tell_total(&self) -> Option<u64> {
        None
    }
}
