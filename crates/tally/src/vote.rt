// One answer that an instruction gives: so many rights, cast in a cell of a question.
#[derive(Clone, Copy)]
pub struct Vote {
    pub question: u8,
    pub cell: u8,
    pub quantity: u64,
}
