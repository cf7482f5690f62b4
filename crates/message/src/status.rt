// What the status of an instruction says, message 567.
use register::reference::Reference;

// What a status is of: an instruction (INST, IPRC), or the cancellation of one (CAST, CPRC).
#[derive(Clone, Copy, PartialEq, Eq, Debug)]
pub enum Process {
    Instruction,
    Cancellation,
}

// The status.
#[derive(Clone, Copy, PartialEq, Eq, Debug)]
pub enum StatusCode {
    // CAND, cancelled
    Cancelled,
    // CANP, cancellation pending
    CancellationPending,
    // DFLA, default action
    DefaultAction,
    // PACK, accepted for processing
    Accepted,
    // PEND, pending
    Pending,
    // REJT, rejected
    Rejected,
    // STIN, standing instruction
    StandingInstruction,
}

#[derive(Clone, Copy)]
pub struct Status {
    // CORP, the reference of the event
    pub event: Reference,
    // INST or CAST
    pub function: Process,
    // RELA, the instruction that the status is about
    pub related: Reference,
    // IPRC or CPRC, under which the code stands
    pub process: Process,
    pub code: StatusCode,
    // whether the qualifier of each reason is the code
    pub agree: bool,
}
