// What is lent to each call of a meeting.
use crate::record::Record;

// A register, a tally and the records, which belong together.
#[derive(Drop)]
pub struct Desk<'a, R, T> {
    pub register: &'a mut R,
    pub tally: &'a mut T,
    pub records: &'a mut [Record],
}
