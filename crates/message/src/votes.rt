// The votes of an instruction, by its field table.
ghost use Rattle.std.specs.Prelude.{◌≡◌, ◌+◌, ◌^◌, ◌<◌, [], ◌∷◌, ◌++◌, take};
ghost use Rattle.std.specs.Option.{option_map};
ghost use Rattle.message.specs.Instructions.{given_votes};
ghost use Rattle.message.specs.Voting.{vote_of, votes_in, kept_and_count};

use crate::instruction::GivenVotes;
use crate::rows;
use crate::values::{ReadText, content};
use format::votes::{VoteAnswer, VoteKind, VoteText, vote};
use short::short::Short;

// For a place that holds no vote yet: what it says is of no account.
pub(crate) const NO_VOTE: VoteText = VoteText {
    question: 0,
    candidate: None,
    kind: VoteKind::Ordinary,
    answer: VoteAnswer::For,
    quantity: 0,
};

// The vote of a value of 70E.
fn vote_of(value: &[u8]) -> Option<VoteText>
    ensures { result ≡ vote_of value.now }
{
    vote(content(rows::INST.qualifier, value)?)
}

impl GivenVotes {
    // No votes.
    fn none() -> GivenVotes
        ensures kept { given_votes result ≡ [] }
        ensures count { result.count ≡ 0 }
    {
        GivenVotes {
            kept: Short::new(NO_VOTE),
            count: 0,
        }
    }

    // One vote more: kept, if there is room, and counted.
    fn add(&mut self, vote: VoteText)
        requires { self.old.count + 1 < 2 ^ 64 }
        ensures kept { given_votes self.new ≡ take 64 (given_votes self.old ++ vote ∷ []) }
        ensures count { self.new.count ≡ self.old.count + 1 }
    {
        // Where there is no room, it is counted all the same.
        let _ = self.kept.push(vote);
        self.count += 1;
    }
}

impl ReadText<'_> {
    // The votes of all entries of 70E.
    pub(crate) fn votes(self) -> Option<GivenVotes>
        ensures { option_map kept_and_count result ≡ votes_in self.entry.text.now self.entry.entries.now }
    {
        let mut votes = GivenVotes::none();
        for entry in self.entries {
            if entry.row == rows::INST.row {
                votes.add(vote_of(self.value_of(*entry))?);
            }
        }
        Some(votes)
    }
}
