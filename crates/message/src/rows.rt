// The rows of the two sheets whose values say what a message says.
use fields::headers::Qualifier;

// A row whose fields have one qualifier: the row's number in its sheet, and the qualifier.
#[derive(Clone, Copy)]
pub struct Keyed {
    pub row: usize,
    pub qualifier: Qualifier,
}

// The rows of both sheets: the reference of the event, and 23G, what the message is for.
pub const CORP: Keyed = Keyed {
    row: 1,
    qualifier: Qualifier(b'C', b'O', b'R', b'P'),
};

pub const FUNCTION: usize = 3;

// The rows of an instruction.
pub const SEME: Keyed = Keyed {
    row: 2,
    qualifier: Qualifier(b'S', b'E', b'M', b'E'),
};

pub const PREV: Keyed = Keyed {
    row: 8,
    qualifier: Qualifier(b'P', b'R', b'E', b'V'),
};

pub const ISIN: usize = 12;

pub const SAFE: Keyed = Keyed {
    row: 14,
    qualifier: Qualifier(b'S', b'A', b'F', b'E'),
};

pub const ALTE: usize = 19;

pub const OWND: Keyed = Keyed {
    row: 20,
    qualifier: Qualifier(b'O', b'W', b'N', b'D'),
};

pub const CAON: Keyed = Keyed {
    row: 23,
    qualifier: Qualifier(b'C', b'A', b'O', b'N'),
};

pub const QINS: Keyed = Keyed {
    row: 25,
    qualifier: Qualifier(b'Q', b'I', b'N', b'S'),
};

pub const INST: Keyed = Keyed {
    row: 26,
    qualifier: Qualifier(b'I', b'N', b'S', b'T'),
};

// The rows of the status of an instruction: the instruction, 25D and 24B.
pub const RELA: Keyed = Keyed {
    row: 8,
    qualifier: Qualifier(b'R', b'E', b'L', b'A'),
};

pub const STATUS: usize = 11;

pub const REASON: usize = 13;
