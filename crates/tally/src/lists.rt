// Whole lists of votes, over any tally.
ghost use Rattle.std.specs.Prelude.{◌≡◌};
ghost use Rattle.tally.specs.Scale.{plus_all, minus_all};
ghost use Rattle.tally.specs.Laws.{Added, Undone};

use crate::interface::Tally;
use crate::vote::Vote;

// Stays two loops: one over a closure would have to say of the closure all that `add` and `take_back` promise.

// Adds every vote of a list.
pub fn add_all<T: Tally>(tally: &mut T, votes: &[Vote])
    ensures scale { T.Tally.scale tally.new ≡ T.Tally.scale tally.old }
    ensures value { T.Tally.value tally.new ≡ plus_all (T.Tally.scale tally.old) (T.Tally.value tally.old) votes.now }
    ensures order { Added (T.Tally.scale tally.old) (T.Tally.value tally.old) votes.now (T.Tally.value tally.new) }
{
    for vote in votes {
        tally.add(*vote);
    }
}

// Takes back every vote of a list. What was added, in whatever order, is gone from the value.
pub fn take_back_all<T: Tally>(tally: &mut T, votes: &[Vote])
    ensures scale { T.Tally.scale tally.new ≡ T.Tally.scale tally.old }
    ensures value { T.Tally.value tally.old ≡ plus_all (T.Tally.scale tally.old) (T.Tally.value tally.new) votes.now }
    ensures inverse { T.Tally.value tally.new ≡ minus_all (T.Tally.scale tally.old) (T.Tally.value tally.old) votes.now }
    ensures undo { Undone (T.Tally.scale tally.old) (T.Tally.value tally.old) votes.now (T.Tally.value tally.new) }
{
    for vote in votes {
        tally.take_back(*vote);
    }
}
