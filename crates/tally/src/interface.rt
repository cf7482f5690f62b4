// What every tally promises.
ghost use Rattle.std.specs.Prelude.{◌≡◌, ℕ, Option};
ghost use Rattle.tally.specs.Scale.{Scale, Group, plus, minus};
ghost use Rattle.tally.specs.declared.vote.Vote.{Vote};

use crate::vote::Vote;

// A tally means a value and a scale: the weight of each vote, and how weights are joined.
// No call changes the scale, and none refuses.
pub trait Tally {
    ghost Value: { Type 0 };

    ghost value: { Self → Value };

    ghost scale: { Self → Scale Value };

    // What a value tells: the figure of a cell of a question, and a total; none where the tally keeps no such thing.
    ghost figure_in: { Value → ℕ → ℕ → Option ℕ };

    ghost total_in: { Value → Option ℕ };

    // Joins the vote's weight to the value.
    fn add(&mut self, vote: Vote)
        ensures scale { scale self.new ≡ scale self.old }
        ensures value { value self.new ≡ plus (scale self.old) (value self.old) vote };

    // Joins the inverse of the vote's weight to the value.
    fn take_back(&mut self, vote: Vote)
        ensures scale { scale self.new ≡ scale self.old }
        ensures value { value self.new ≡ minus (scale self.old) (value self.old) vote };

    // Gives the neutral value, the joined weight of no votes.
    fn clear(&mut self)
        ensures scale { scale self.new ≡ scale self.old }
        ensures value { value self.new ≡ (scale self.old).neutral };

    // The figure of a cell of a question; none off the table, or where no figures are kept.
    fn tell_figure(&self, question: u8, cell: u8) -> Option<u64>
        ensures { result ≡ figure_in (value self.now) question cell };

    // The total; none where none is kept.
    fn tell_total(&self) -> Option<u64>
        ensures { result ≡ total_in (value self.now) };

    ghost group: { (t : Self) → Group (scale t) };
}
