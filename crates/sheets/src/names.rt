// The names of blocks, the tags and the qualifiers of the two sheets.
use crate::tables::{List, Name};
use fields::headers::{Qualifier, Tag};

pub const GENL_BLOCK: Name = Name {
    bytes: b"GENL\0\0\0\0",
    len: 4,
};

pub const LINK_BLOCK: Name = Name {
    bytes: b"LINK\0\0\0\0",
    len: 4,
};

pub const USECU_BLOCK: Name = Name {
    bytes: b"USECU\0\0\0",
    len: 5,
};

pub const ACCTINFO_BLOCK: Name = Name {
    bytes: b"ACCTINFO",
    len: 8,
};

pub const BENODET_BLOCK: Name = Name {
    bytes: b"BENODET\0",
    len: 7,
};

pub const CAINST_BLOCK: Name = Name {
    bytes: b"CAINST\0\0",
    len: 6,
};

pub const STAT_BLOCK: Name = Name {
    bytes: b"STAT\0\0\0\0",
    len: 4,
};

pub const REAS_BLOCK: Name = Name {
    bytes: b"REAS\0\0\0\0",
    len: 4,
};

pub const TAG_20C: Tag = Tag(b'2', b'0', b'C');

pub const TAG_23G: Tag = Tag(b'2', b'3', b'G');

pub const TAG_22F: Tag = Tag(b'2', b'2', b'F');

pub const TAG_98C: Tag = Tag(b'9', b'8', b'C');

pub const TAG_13A: Tag = Tag(b'1', b'3', b'A');

pub const TAG_35B: Tag = Tag(b'3', b'5', b'B');

pub const TAG_97A: Tag = Tag(b'9', b'7', b'A');

pub const TAG_95V: Tag = Tag(b'9', b'5', b'V');

pub const TAG_95S: Tag = Tag(b'9', b'5', b'S');

pub const TAG_36B: Tag = Tag(b'3', b'6', b'B');

pub const TAG_70E: Tag = Tag(b'7', b'0', b'E');

pub const TAG_25D: Tag = Tag(b'2', b'5', b'D');

pub const TAG_24B: Tag = Tag(b'2', b'4', b'B');

// The qualifiers that codes stand under.
pub const CAEV: Qualifier = Qualifier(b'C', b'A', b'E', b'V');

pub const CAOP: Qualifier = Qualifier(b'C', b'A', b'O', b'P');

pub const LINK: Qualifier = Qualifier(b'L', b'I', b'N', b'K');

pub const CPRC: Qualifier = Qualifier(b'C', b'P', b'R', b'C');

pub const IPRC: Qualifier = Qualifier(b'I', b'P', b'R', b'C');

pub const PEND: Qualifier = Qualifier(b'P', b'E', b'N', b'D');

pub const REJT: Qualifier = Qualifier(b'R', b'E', b'J', b'T');

pub const CAND: Qualifier = Qualifier(b'C', b'A', b'N', b'D');

pub const CANP: Qualifier = Qualifier(b'C', b'A', b'N', b'P');

pub const PACK: Qualifier = Qualifier(b'P', b'A', b'C', b'K');

// The qualifiers of a row: none, one alone, and those of a status and of its reason.
pub const NO_QUALIFIER: List = List {
    items: &[Qualifier(0, 0, 0, 0); 9],
    count: 0,
};

pub const ONLY_CORP: List = List {
    items: &[Qualifier(b'C', b'O', b'R', b'P'); 9],
    count: 1,
};

pub const ONLY_SEME: List = List {
    items: &[Qualifier(b'S', b'E', b'M', b'E'); 9],
    count: 1,
};

pub const ONLY_CAEV: List = List {
    items: &[CAEV; 9],
    count: 1,
};

pub const ONLY_PREP: List = List {
    items: &[Qualifier(b'P', b'R', b'E', b'P'); 9],
    count: 1,
};

pub const ONLY_LINK: List = List {
    items: &[LINK; 9],
    count: 1,
};

pub const ONLY_PREV: List = List {
    items: &[Qualifier(b'P', b'R', b'E', b'V'); 9],
    count: 1,
};

pub const ONLY_SAFE: List = List {
    items: &[Qualifier(b'S', b'A', b'F', b'E'); 9],
    count: 1,
};

pub const ONLY_OWND: List = List {
    items: &[Qualifier(b'O', b'W', b'N', b'D'); 9],
    count: 1,
};

pub const ONLY_ALTE: List = List {
    items: &[Qualifier(b'A', b'L', b'T', b'E'); 9],
    count: 1,
};

pub const ONLY_CAON: List = List {
    items: &[Qualifier(b'C', b'A', b'O', b'N'); 9],
    count: 1,
};

pub const ONLY_CAOP: List = List {
    items: &[CAOP; 9],
    count: 1,
};

pub const ONLY_QINS: List = List {
    items: &[Qualifier(b'Q', b'I', b'N', b'S'); 9],
    count: 1,
};

pub const ONLY_INST: List = List {
    items: &[Qualifier(b'I', b'N', b'S', b'T'); 9],
    count: 1,
};

pub const ONLY_RELA: List = List {
    items: &[Qualifier(b'R', b'E', b'L', b'A'); 9],
    count: 1,
};

pub const STATUSES: List = List {
    items: &[CPRC, IPRC, IPRC, IPRC, IPRC, IPRC, IPRC, IPRC, IPRC],
    count: 2,
};

pub const REASONS: List = List {
    items: &[PEND, REJT, CAND, CANP, PACK, PACK, PACK, PACK, PACK],
    count: 5,
};
