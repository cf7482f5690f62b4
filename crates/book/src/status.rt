// What a status does to an instruction.
ghost use Rattle.std.specs.Prelude.{◌≡◌};
ghost use Rattle.book.specs.States.{event_of, turned, asking, is_asked};

use crate::record::State;
use message::status::{Process, StatusCode};

// What a status comes to.
#[derive(Clone, Copy, PartialEq, Eq, Debug)]
pub enum StatusEvent {
    Acceptance,
    Rejection,
    Cancellation,
    // The cancellation is refused.
    Refusal,
    // Nothing changes.
    Nothing,
}

impl StatusEvent {
    // The event that a code stands for, in the status of an instruction or of a cancellation.
    pub fn of(process: Process, code: StatusCode) -> StatusEvent
        ensures { result ≡ event_of process code }
    {
        match (process, code) {
            (Process::Instruction, StatusCode::Accepted) => StatusEvent::Acceptance,
            (Process::Instruction, StatusCode::Rejected) => StatusEvent::Rejection,
            (_, StatusCode::Cancelled) => StatusEvent::Cancellation,
            (Process::Cancellation, StatusCode::Rejected) => StatusEvent::Refusal,
            _ => StatusEvent::Nothing,
        }
    }
}

impl State {
    // The state after an event; none where the instruction ends.
    pub fn after(self, event: StatusEvent) -> Option<State>
        ensures { result ≡ turned self event }
    {
        match (self, event) {
            (_, StatusEvent::Rejection | StatusEvent::Cancellation) => None,
            (State::Lodged { asked } | State::Accepted { asked }, StatusEvent::Acceptance) => Some(
                State::Accepted { asked },
            ),
            (State::Lodged { .. }, StatusEvent::Refusal) => Some(State::Lodged { asked: false }),
            (State::Accepted { .. }, StatusEvent::Refusal) => Some(State::Accepted {
                asked: false,
            }),
            (state, StatusEvent::Nothing) => Some(state),
        }
    }

    // The state once cancellation is asked.
    pub fn with_cancellation_asked(self) -> State
        ensures { result ≡ asking self }
    {
        match self {
            State::Lodged { .. } => State::Lodged { asked: true },
            State::Accepted { .. } => State::Accepted { asked: true },
        }
    }

    // Is cancellation asked?
    pub fn is_asked(self) -> bool
        ensures { result ≡ is_asked self }
    {
        match self {
            State::Lodged { asked } | State::Accepted { asked } => asked,
        }
    }
}
