// Conducting a meeting on the register that its opening asks for: a list under a pile of fronts.
use crate::command::{Fronts, List, Setup};
use crate::view::new_table;
use book::record::Record;
use conduct::call::{Answer, Call};
use conduct::conduct::conduct;
use meeting::draft::Draft;
use reader::table::Entry;
use register::arrival::ArrivalList;
use register::entry::unused_slot;
use register::front::Front;
use register::interface::Register;
use register::ordered::OrderedList;
use std::alloc::{AllocError, Global};
use tally::ballot::Ballot;
use tally::both::Both;
use tally::control::ControlTotal;

// The most pairs that a list keeps. As many instructions stand at most, so that more records would stay empty.
const MOST_PAIRS: usize = 1024;

// What a meeting is conducted on besides its register.
#[derive(Drop)]
struct Sitting {
    draft: Draft,
    records: Vec<Record>,
    table: Vec<Entry>,
    answers: Vec<Answer>,
}

impl Sitting {
    // Conducts the meeting, and gives the answers to the calls that were made.
    fn hold<R: Register>(self, register: &mut R, calls: &[Call<'_>]) -> Vec<Answer> {
        let Sitting {
            draft,
            mut records,
            mut table,
            mut answers,
        } = self;
        let mut tally = Both::new(Ballot::new(), ControlTotal::new());
        let made = conduct(
            draft,
            register,
            &mut tally,
            &mut records,
            &mut table,
            calls,
            &mut answers,
        );
        answers.truncate(made);
        answers
    }

    fn hold_over<R: Register + Drop>(
        self,
        list: R,
        fronts: Fronts,
        calls: &[Call<'_>],
    ) -> Vec<Answer> {
        // Stays a match: each pile is a type of its own, for which the law is proved, and a `dyn` would be a fourth.
        match fronts {
            Fronts::Zero => {
                let mut register = list;
                self.hold(&mut register, calls)
            }
            Fronts::One => {
                let mut register = Front::new(list);
                self.hold(&mut register, calls)
            }
            Fronts::Two => {
                let mut register = Front::new(Front::new(list));
                self.hold(&mut register, calls)
            }
        }
    }
}

// Opens the meeting on what the setup asks for, carries out the calls, and gives the answers.
pub fn answer_all(
    heap: Global,
    draft: Draft,
    setup: Setup,
    calls: &[Call<'_>],
) -> Result<Vec<Answer>, AllocError> {
    let mut slots = vec![in heap; unused_slot(); setup.capacity.min(MOST_PAIRS)]?;
    let sitting = Sitting {
        draft,
        records: vec![in heap; None; setup.records.min(MOST_PAIRS)]?,
        table: new_table(heap, setup.entries)?,
        answers: vec![in heap; Answer::Closed; calls.len()]?,
    };
    match setup.list {
        List::Arrival => Ok(sitting.hold_over(ArrivalList::new(&mut slots), setup.fronts, calls)),
        List::Ordered => Ok(sitting.hold_over(OrderedList::new(&mut slots), setup.fronts, calls)),
    }
}
