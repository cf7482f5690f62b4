// A message of either kind.
use crate::instruction::Instruction;
use crate::status::Status;

#[derive(Clone, Copy)]
pub enum Message {
    // An instruction to vote, 565.
    Instructs(Instruction),
    // The status of an instruction, 567.
    Reports(Status),
}
