// The votes of a message: which are good, and in which cell each is cast.
ghost use Rattle.std.specs.Prelude.{◌≡◌, ℕ, [], Some, None, Option as Maybe, MatchResult};
ghost use Rattle.std.specs.Result.{result_err};
ghost use Rattle.message.specs.Instructions.{given_votes};
ghost use Rattle.agenda.specs.Votes.{votes_of};
ghost use Rattle.agenda.specs.Casting.{VotesJudged, bad_from, bad_vote, answer_cell, cast_in, cast_one, cast_vote, cast_votes, fits, suits, too_many};

use crate::agenda::Agenda;
use crate::question::Question;
use crate::votes::Votes;
use format::votes::{VoteAnswer, VoteKind, VoteText};
use message::instruction::{GivenVotes, MOST_VOTES};
use tally::vote::Vote;

// For a place that holds no vote yet: what it says is of no account.
const NO_VOTE: Vote = Vote {
    question: 0,
    cell: 0,
    quantity: 0,
};

// What the votes of a message cast; or the place of the first vote that is not good, counted from 1. A vote is good where its question is on
// the agenda with its kind, it suits that question, its cell is in no vote before it, and it is among the first 64.
// Stays a bare place in the error: it is shown as it is, and a type of its own would only be taken off again.
pub fn cast(agenda: &Agenda, given: &GivenVotes) -> Result<Votes, usize>
    ensures value { MatchResult result (λ v. (bad_vote agenda.now.questions (given_votes given.now) given.now.count ≡ None) × (votes_of v ≡ cast_votes (given_votes given.now))) (λ place. bad_vote agenda.now.questions (given_votes given.now) given.now.count ≡ Some place) }
    ensures judged { VotesJudged agenda.now.questions (given_votes given.now) given.now.count (result_err result) }
    ensures only { (p : Maybe ℕ) → VotesJudged agenda.now.questions (given_votes given.now) given.now.count p → p ≡ result_err result }
{
    let votes = cast_kept(agenda, given)?;
    all_kept(given.count)?;
    Ok(votes)
}

// Is each of so many votes kept? Else this is the place of the first that is not.
fn all_kept(count: usize) -> Result<(), usize>
    ensures { result_err result ≡ too_many count None }
{
    if count > MOST_VOTES {
        Err(MOST_VOTES + 1)
    } else {
        Ok(())
    }
}

// What the votes that are kept cast, one after the other; or the place of the first that is not good.
fn cast_kept(agenda: &Agenda, given: &GivenVotes) -> Result<Votes, usize>
    ensures { MatchResult result (λ v. (bad_from agenda.now.questions [] (given_votes given.now) ≡ None) × (votes_of v ≡ cast_votes (given_votes given.now))) (λ place. bad_from agenda.now.questions [] (given_votes given.now) ≡ Some place) }
{
    let texts = given.kept.as_slice();
    let mut votes = Votes::new(NO_VOTE);
    for text in texts {
        let vote = cast_one(agenda, &votes, *text)?;
        votes.push(vote).unwrap();
    }
    Ok(votes)
}

// What a vote casts that comes after these; or its place, where it is not good.
fn cast_one(agenda: &Agenda, earlier: &Votes, vote: VoteText) -> Result<Vote, usize>
    ensures { result ≡ cast_one agenda.now.questions (votes_of earlier.now) vote }
{
    let cast = cast_vote(vote);
    if suits_question(agenda.question(vote.question), vote)
        && !is_taken(earlier, cast.question, cast.cell)
    {
        Ok(cast)
    } else {
        Err(earlier.as_slice().len() + 1)
    }
}

// Is the question of a vote on the agenda, of its kind, and does the vote fit that?
fn suits_question(question: Option<Question>, vote: VoteText) -> bool
    ensures { result ≡ suits question vote }
{
    question.is_some_and(|question| question.kind == vote.kind && fits_question(question, vote))
}

// An ordinary vote names no candidate; a cumulative one says yes to a candidate of the question.
fn fits_question(question: Question, vote: VoteText) -> bool
    ensures { result ≡ fits question vote.kind vote.candidate vote.answer }
{
    match (vote.kind, vote.candidate, vote.answer) {
        (VoteKind::Ordinary, None, _) => true,
        (VoteKind::Cumulative, Some(candidate), VoteAnswer::For) => {
            (1..=question.candidates).contains(&candidate)
        }
        _ => false,
    }
}

// So many rights, in the cell that the vote says: that of the answer, or of the candidate.
fn cast_vote(vote: VoteText) -> Vote
    ensures { result ≡ cast_vote vote }
{
    Vote {
        question: vote.question,
        cell: match vote.kind {
            VoteKind::Ordinary => answer_cell(vote.answer),
            VoteKind::Cumulative => vote.candidate.unwrap_or(0),
        },
        quantity: vote.quantity,
    }
}

// An ordinary question has cell 1 for yes, 2 for no and 3 for an abstention.
fn answer_cell(answer: VoteAnswer) -> u8
    ensures { result ≡ answer_cell answer }
{
    match answer {
        VoteAnswer::For => 1,
        VoteAnswer::Against => 2,
        VoteAnswer::Abstain => 3,
    }
}

// Is a vote cast in this cell among these?
fn is_taken(votes: &Votes, question: u8, cell: u8) -> bool
    ensures { result ≡ cast_in (votes_of votes.now) question cell }
{
    votes
        .as_slice()
        .iter()
        .any(|vote| vote.question == question && vote.cell == cell)
}
