// The control total: one number that all votes move.
ghost use Rattle.std.specs.Prelude.{◌≡◌, ◌+◌, ◌<◌, Some, None};
ghost use Rattle.tally.specs.Residue.{Residue};
ghost use Rattle.tally.specs.Control.{control_modulus, control_weight, control, exactly, leaving};
ghost use Rattle.tally.specs.Laws.{TotalCounts};
ghost use Rattle.std.proofs.Common.{lit<};
ghost use Rattle.tally.specs.Residues.{modulo_group};

use crate::interface::Tally;
use crate::remainder::{opposite, reduced};
use crate::vote::Vote;

// The sum of quantity times question number, modulo 10,000,000,000.
#[derive(Drop)]
pub struct ControlTotal {
    sum: u64,
    ghost below: { sum < control_modulus },
}

impl ControlTotal {
    pub fn new() -> ControlTotal
        ensures { exactly result.sum result.below ≡ control.neutral }
    {
        ControlTotal::of(0)
    }

    #[tactic(auto, using(crate::proofs::Counting::products_joined))]
    pub fn total(&self) -> u64
        ensures value { result ≡ self.now.sum }
        ensures counts { TotalCounts (exactly self.now.sum self.now.below) result }
    {
        self.sum
    }

    // What is left of a whole number.
    fn of(n: u128) -> ControlTotal
        ensures { exactly result.sum result.below ≡ leaving n }
    {
        ControlTotal { sum: reduced(n) }
    }

    fn join(&mut self, weight: u64)
        ensures { exactly self.new.sum self.new.below ≡ leaving (self.old.sum + weight) }
    {
        *self = ControlTotal::of(u128::from(self.total()) + u128::from(weight));
    }
}

// The weight of a vote. The product has up to 72 bits, so it is taken in 128.
fn weighed(vote: Vote) -> u64
    ensures { result ≡ control_weight vote }
{
    reduced(u128::from(vote.quantity) * u128::from(vote.question))
}

impl Tally for ControlTotal {
    ghost Value = { Residue control_modulus };

    ghost value = { λ t. exactly t.sum t.below };

    ghost scale = { λ _. control };

    ghost figure_in = { λ _ _ _. None };

    ghost total_in = { λ a. Some a.0 };

    ghost group = { λ t. modulo_group control_modulus (lit< tt) control_weight };

    fn add(&mut self, vote: Vote) {
        self.join(weighed(vote));
    }

    fn take_back(&mut self, vote: Vote) {
        self.join(opposite(weighed(vote)));
    }

    fn clear(&mut self) {
        *self = ControlTotal::new();
    }

    fn tell_figure(&self, _question: u8, _cell: u8) -> Option<u64> {
        None
    }

    fn tell_total(&self) -> Option<u64> {
        Some(self.total())
    }
}
