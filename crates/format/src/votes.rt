// Votes: the question, the candidate, the kind, the answer and the quantity, in lines of 35 characters.
ghost use Rattle.std.specs.Prelude.{◌≡◌, ℕ};
ghost use Rattle.format.specs.Folding.{Folds};
ghost use Rattle.format.specs.Laws.{Decoded, Once};
ghost use Rattle.format.specs.Texts.{left};
ghost use Rattle.format.specs.Vote.{InVote, answer_word, kind_word, read_answer, read_candidate, read_cast, read_flat, read_kind, read_subject, read_vote, vote_spelled};

use crate::folds::{Folded, flat};
use crate::numbers::number;
use crate::text::{Plain, Text, stands_for};

// The two kinds of a vote.
#[derive(Clone, Copy, PartialEq, Eq, Debug)]
pub enum VoteKind {
    Ordinary,
    Cumulative,
}

// What a vote says.
#[derive(Clone, Copy, PartialEq, Eq, Debug)]
pub enum VoteAnswer {
    For,
    Against,
    Abstain,
}

// What a vote's text spells.
#[derive(Clone, Copy, PartialEq, Eq, Debug)]
pub struct VoteText {
    pub question: u8,
    pub candidate: Option<u8>,
    pub kind: VoteKind,
    pub answer: VoteAnswer,
    pub quantity: u64,
}

// The candidate, if one stands at the front before a slash, and what is left behind it.
fn candidate<T: Text>(text: T) -> Option<(Option<u8>, T)>
    ensures { left T.chars result ≡ read_candidate (T.chars text) }
{
    if let Some((b'/', _)) = text.split_first() {
        return Some((None, text));
    }
    let (n, rest) = number(text, 2)?;
    Some((Some(n as u8), rest))
}

// The question and the candidate, with which a vote begins, and what is left behind them.
fn subject<T: Text>(text: T) -> Option<((u8, Option<u8>), T)>
    ensures { left T.chars result ≡ read_subject (T.chars text) }
{
    let (question, rest) = number(text.after_word(b"ISLB/")?, 2)?;
    let (candidate, rest) = candidate(rest.after_word(b".")?)?;
    Some(((question as u8, candidate), rest))
}

// The word of the kind at the front, and what is left behind it.
fn kind_word<T: Text>(text: T) -> Option<(VoteKind, T)>
    ensures { left T.chars result ≡ kind_word (T.chars text) }
{
    let ordinary = stands_for(text, b"ORDN", VoteKind::Ordinary);
    ordinary.or_else(|| stands_for(text, b"CMLT", VoteKind::Cumulative))
}

// The kind at the front, and what is left behind it.
#[tactic(auto, using(crate::proofs::VoteLaws::kind_none, crate::proofs::VoteLaws::kind_some))]
fn kind<T: Text>(text: T) -> Option<(VoteKind, T)>
    ensures { left T.chars result ≡ read_kind (T.chars text) }
{
    kind_word(text.after_word(b"/TYPE/")?)
}

// The word of the answer at the front, and what is left behind it.
fn answer_word<T: Text>(text: T) -> Option<(VoteAnswer, T)>
    ensures { left T.chars result ≡ answer_word (T.chars text) }
{
    stands_for(text, b"CONY", VoteAnswer::For)
        .or_else(|| stands_for(text, b"CONN", VoteAnswer::Against))
        .or_else(|| stands_for(text, b"ABST", VoteAnswer::Abstain))
}

// The answer at the front, and what is left behind it.
#[tactic(auto, using(crate::proofs::VoteLaws::answer_none, crate::proofs::VoteLaws::answer_some))]
fn answer<T: Text>(text: T) -> Option<(VoteAnswer, T)>
    ensures { left T.chars result ≡ read_answer (T.chars text) }
{
    answer_word(text.after_word(b"/RSLT/")?)
}

// The quantity with which a vote ends.
fn cast<T: Text>(text: T) -> Option<u64>
    ensures { result ≡ read_cast (T.chars text) }
{
    let (n, rest) = number(text.after_word(b"/QVTG/")?, 15)?;
    rest.is_end().then_some(n)
}

// The vote that a text spells.
fn vote_of<T: Text>(text: T) -> Option<VoteText>
    ensures { result ≡ read_flat (T.chars text) }
{
    let ((question, candidate), rest) = subject(text)?;
    let (kind, rest) = kind(rest)?;
    let (answer, rest) = answer(rest)?;
    let quantity = cast(rest)?;
    Some(VoteText {
        question,
        candidate,
        kind,
        answer,
        quantity,
    })
}

// The vote that a folded text spells. No vote has more than two lines; what has goes the long way, to be refused there.
fn read(value: &[u8]) -> Option<VoteText>
    ensures { result ≡ read_vote value.now }
{
    let folded = Folded::new(value)?;
    match flat(value) {
        Ok(text) => vote_of(Plain(text.as_slice())),
        Err(_) => vote_of(folded),
    }
}

// The vote that a value spells: `ISLB/`, the question, a point, the candidate or nothing, `/TYPE/` and the kind, `/RSLT/` and the answer,
// `/QVTG/` and the quantity, with a CR LF after every 35th character that another follows.
#[tactic(auto, using(crate::proofs::VoteLaws::vote_decoded, crate::proofs::LineLaws::folds))]
pub fn vote(value: &[u8]) -> Option<VoteText>
    ensures value { result ≡ read_vote value.now }
    ensures decoded { Decoded InVote vote_spelled value.now result }
    ensures once { Once InVote vote_spelled }
    ensures folds { Folds }
{
    read(value)
}
