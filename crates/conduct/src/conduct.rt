// Conducting a meeting.
ghost use Rattle.std.specs.Prelude.{◌≡◌, ℕ, ◌≤◌, min, length, is_some};
ghost use Rattle.std.specs.List.{slice_get};
ghost use Rattle.book.specs.Desk.{Led};
ghost use Rattle.meeting.specs.Notices.{convened, drafted};
ghost use Rattle.conduct.specs.Run.{Made};
ghost use Rattle.conduct.specs.Conducting.{over, notice_of, Goes, Asks, Puts, Conducts};

use crate::call::{Answer, Call, Question, Reply};
use book::record::Record;
use meeting::draft::Draft;
use meeting::meeting::{ClosedMeeting, Meeting, Taking};
use reader::table::Entry;
use register::interface::Register;
use tally::interface::Tally;

// A meeting on its way: sitting, or over.
#[derive(Drop)]
pub enum Phase {
    Sitting(Meeting<Taking>),
    Over(ClosedMeeting),
}

// Asks a meeting, sitting or over.
fn ask<S, R: Register, T: Tally>(
    meeting: &Meeting<S>,
    register: &mut R,
    tally: &T,
    records: &[Record],
    question: Question<'_>,
) -> Reply
    ensures led { Led R.Register register.old register.new }
    ensures asks { Asks R.Register T.Tally (convened meeting.now) register.old tally.now records.now question.entry result register.new }
{
    match question {
        Question::State(reference) => Reply::State(meeting.state(register, records, reference)),
        Question::Figure(question, cell) => Reply::Figure(meeting.figure(tally, question, cell)),
        Question::Total => Reply::Total(meeting.total(tally)),
        Question::Standing => Reply::Standing(meeting.standing(records)),
        Question::Asked(depth) => Reply::Asked(register.asked_at(depth)),
    }
}

// Puts one call to a meeting, if it can still be made.
// Stays with a register, a tally and records: no desk, since a meeting is lent the three, and takes the desk apart again.
fn put<R: Register, T: Tally>(
    phase: Phase,
    register: &mut R,
    tally: &mut T,
    records: &mut [Record],
    table: &mut [Entry],
    call: &Call<'_>,
) -> (Phase, Option<Answer>)
    ensures led { Led R.Register register.old register.new }
    ensures scale { T.Tally.scale tally.new ≡ T.Tally.scale tally.old }
    ensures notice { notice_of result.0 ≡ notice_of phase }
    ensures goes { Goes (over phase) call.now result.1 (over result.0) }
    ensures puts { Puts R.Register T.Tally (notice_of phase) (length table.old) register.old tally.old records.old call.now result.1 register.new tally.new records.new }
{
    match phase {
        Phase::Sitting(meeting) => match *call {
            Call::Take(number, text) => {
                let taken = meeting.take(register, tally, records, table, number, text);
                (Phase::Sitting(meeting), Some(Answer::Taken(taken)))
            }
            Call::Ask(question) => {
                let reply = ask(&meeting, register, tally, records, question);
                (Phase::Sitting(meeting), Some(Answer::Told(reply)))
            }
            Call::Close => (Phase::Over(meeting.close()), Some(Answer::Closed)),
        },
        Phase::Over(closed) => match *call {
            Call::Ask(question) => {
                let reply = ask(&closed, register, tally, records, question);
                (Phase::Over(closed), Some(Answer::Told(reply)))
            }
            Call::Take(..) | Call::Close => (Phase::Over(closed), None),
        },
    }
}

// How many of the calls have a place for their answer.
fn answerable(calls: &[Call<'_>], answers: &[Answer]) -> usize
    ensures { result ≡ min (length calls.now) (length answers.now) }
{
    calls.len().min(answers.len())
}

// Opens a meeting and carries out the calls, as many as can be made and as there is room for answers, and says how many those were.
pub fn conduct<R: Register, T: Tally>(
    draft: Draft,
    register: &mut R,
    tally: &mut T,
    records: &mut [Record],
    table: &mut [Entry],
    calls: &[Call<'_>],
    answers: &mut [Answer],
) -> usize
    ensures made { Made calls.now (length answers.old) result }
    ensures rest { (k : ℕ) → result ≤ k → slice_get answers.new k ≡ slice_get answers.old k }
    ensures led { Led R.Register register.old register.new }
    ensures run { Conducts R.Register T.Tally (drafted draft) (length table.old) register.old tally.old records.old calls.now answers.new result register.new tally.new records.new }
{
    let mut phase = Phase::Sitting(draft.open(register, tally, records));
    let n = answerable(calls, answers);
    // Stays an index: over `calls.iter().zip(answers.iter_mut())` nothing is known after the loop of what it wrote.
    for k in 0..n {
        let (next, answer) = put(phase, register, tally, records, table, &calls[k]);
        phase = next;
        match answer {
            Some(answer) => answers[k] = answer,
            None => return k,
        }
    }
    n
}
