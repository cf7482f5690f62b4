// The sums of an instruction's votes.
ghost use Rattle.std.specs.Prelude.{◌≡◌, ℕ, Option as Maybe};
ghost use Rattle.agenda.specs.Votes.{votes_of};
ghost use Rattle.agenda.specs.Sums.{SumsJudged, balanced, count_fits, holds_on, sum_on, unbalanced as unbalanced_of, unbalanced_from, votes_on};

use crate::agenda::Agenda;
use crate::question::{MOST_QUESTIONS, Question};
use crate::votes::Votes;
use format::votes::VoteKind;

// The least question on which the sum does not hold. Where there are votes on a question, their quantities sum to its multiplier times the
// holding, and an ordinary question has one vote.
pub fn unbalanced(agenda: &Agenda, holding: u64, votes: &Votes) -> Option<u8>
    ensures value { result ≡ unbalanced_of agenda.now.questions holding (votes_of votes.now) }
    ensures judged { SumsJudged agenda.now.questions holding (votes_of votes.now) result }
    ensures only { (p : Maybe ℕ) → SumsJudged agenda.now.questions holding (votes_of votes.now) p → p ≡ result }
{
    let sums = Sums {
        agenda,
        holding,
        votes,
    };
    sums.least_unbalanced()
}

// The votes of an instruction with its holding, on an agenda.
#[derive(Clone, Copy)]
struct Sums<'a> {
    agenda: &'a Agenda,
    holding: u64,
    votes: &'a Votes,
}

impl Sums<'_> {
    // The least of all questions that an agenda has a place for.
    fn least_unbalanced(self) -> Option<u8>
        ensures { result ≡ unbalanced_of self.entry.agenda.now.questions self.entry.holding (votes_of self.entry.votes.now) }
    {
        self.least_up_to(MOST_QUESTIONS as u8)
    }

    // The least of the questions from 1 to `last` on which the sum does not hold.
    fn least_up_to(self, last: u8) -> Option<u8>
        ensures { result ≡ unbalanced_from self.entry.agenda.now.questions self.entry.holding (votes_of self.entry.votes.now) 1 last }
    {
        (1..=last).find(|number| !self.is_balanced(*number))
    }

    // Does the sum hold on a question? One that is not voted on asks for nothing.
    fn is_balanced(self, number: u8) -> bool
        ensures { result ≡ balanced self.entry.agenda.now.questions self.entry.holding (votes_of self.entry.votes.now) number }
    {
        let cast = cast_on(self.votes, number);
        cast.votes == 0 || holds(self.agenda.question(number), self.holding, cast)
    }
}

// What is cast on one question: the sum of the quantities, and how many votes.
#[derive(Clone, Copy)]
struct CastOn {
    sum: u128,
    votes: usize,
}

fn cast_on(votes: &Votes, number: u8) -> CastOn
    ensures sum { result.sum ≡ sum_on (votes_of votes.now) number }
    ensures votes { result.votes ≡ votes_on (votes_of votes.now) number }
{
    let given = votes.as_slice();
    let mut cast = CastOn { sum: 0, votes: 0 };
    // Stays a loop: it sums and counts in one pass.
    for vote in given {
        if vote.question == number {
            cast.sum += u128::from(vote.quantity);
            cast.votes += 1;
        }
    }
    cast
}

// Does what is cast hold on the question, if that is on the agenda?
fn holds(question: Option<Question>, holding: u64, cast: CastOn) -> bool
    ensures { result ≡ holds_on question holding cast.sum cast.votes }
{
    question.is_some_and(|question| {
        cast.sum == u128::from(question.multiplier) * u128::from(holding)
            && count_fits(question.kind, cast.votes)
    })
}

// An ordinary question has one vote.
fn count_fits(kind: VoteKind, votes: usize) -> bool
    ensures { result ≡ count_fits kind votes }
{
    match kind {
        VoteKind::Ordinary => votes == 1,
        VoteKind::Cumulative => true,
    }
}
