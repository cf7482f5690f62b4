// The pair of two tallies, which is a tally.
ghost use Rattle.std.specs.Prelude.{◌≡◌};
ghost use Rattle.tally.specs.Combined.{paired, or_else};
ghost use Rattle.std.proofs.Common.{rules};

use crate::interface::Tally;
use crate::vote::Vote;

// Two tallies of the same votes, kept side by side.
#[derive(Drop)]
pub struct Both<A, B> {
    first: A,
    second: B,
}

impl<A, B> Both<A, B> {
    pub fn new(first: A, second: B) -> Both<A, B>
        ensures first { result.first ≡ first }
        ensures second { result.second ≡ second }
    {
        Both { first, second }
    }

    pub fn first(&self) -> &A
        ensures { result.now ≡ self.now.first }
    {
        &self.first
    }

    pub fn second(&self) -> &B
        ensures { result.now ≡ self.now.second }
    {
        &self.second
    }
}

impl<A: Tally, B: Tally> Tally for Both<A, B> {
    ghost Value = { A.Tally.Value × B.Tally.Value };

    ghost value = { λ t. (A.Tally.value t.first, B.Tally.value t.second) };

    ghost scale = { λ t. paired (A.Tally.scale t.first) (B.Tally.scale t.second) };

    // The first's where it tells one, else the second's.
    ghost figure_in = { λ a question cell. or_else (A.Tally.figure_in a.0 question cell) (B.Tally.figure_in a.1 question cell) };

    ghost total_in = { λ a. or_else (A.Tally.total_in a.0) (B.Tally.total_in a.1) };

    ghost group = { Prim.search rules };

    fn add(&mut self, vote: Vote) {
        self.first.add(vote);
        self.second.add(vote);
    }

    fn take_back(&mut self, vote: Vote) {
        self.first.take_back(vote);
        self.second.take_back(vote);
    }

    fn clear(&mut self) {
        self.first.clear();
        self.second.clear();
    }

    fn tell_figure(&self, question: u8, cell: u8) -> Option<u64> {
        self.first
            .tell_figure(question, cell)
            .or(self.second.tell_figure(question, cell))
    }

    fn tell_total(&self) -> Option<u64> {
        self.first.tell_total().or(self.second.tell_total())
    }
}
