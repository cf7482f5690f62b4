// The rows of the two sheets.
ghost use Rattle.std.specs.Prelude.{◌≡◌};
ghost use Rattle.sheets.specs.Lines.{list_in, name_in, row_in};

use crate::names::{
    ACCTINFO_BLOCK, BENODET_BLOCK, CAINST_BLOCK, GENL_BLOCK, LINK_BLOCK, NO_QUALIFIER, ONLY_ALTE,
    ONLY_CAEV, ONLY_CAON, ONLY_CAOP, ONLY_CORP, ONLY_INST, ONLY_LINK, ONLY_OWND, ONLY_PREP,
    ONLY_PREV, ONLY_QINS, ONLY_RELA, ONLY_SAFE, ONLY_SEME, REAS_BLOCK, REASONS, STAT_BLOCK,
    STATUSES, TAG_13A, TAG_20C, TAG_22F, TAG_23G, TAG_24B, TAG_25D, TAG_35B, TAG_36B, TAG_70E,
    TAG_95S, TAG_95V, TAG_97A, TAG_98C, USECU_BLOCK,
};
use fields::headers::{Qualifier, Tag};
use sheet::marks::Mark;
use sheet::rows::{BlockName, FieldRow, Format, LONGEST_NAME, MOST_QUALIFIERS, Qualifiers, Row};

// The name of a block, as a row keeps it.
#[derive(Clone, Copy)]
pub struct Name {
    pub bytes: &'static [u8; LONGEST_NAME],
    pub len: usize,
}

// The qualifiers of a row, as it keeps them.
#[derive(Clone, Copy)]
pub struct List {
    pub items: &'static [Qualifier; MOST_QUALIFIERS],
    pub count: usize,
}

// The row of a field as its table has it, which lends the qualifiers.
#[derive(Clone, Copy)]
pub struct FieldLine {
    pub mark: Mark,
    pub tag: Tag,
    pub qualifiers: List,
    pub format: Format,
}

// A row as its table has it, which lends the name or the qualifiers.
#[derive(Clone, Copy)]
pub enum Line {
    Open(Mark, Name),
    Close(Name),
    Field(FieldLine),
}

impl Name {
    fn name(self) -> BlockName
        ensures { result ≡ name_in self }
    {
        BlockName {
            bytes: *self.bytes,
            len: self.len,
        }
    }
}

impl List {
    fn list(self) -> Qualifiers
        ensures { result ≡ list_in self }
    {
        Qualifiers {
            items: *self.items,
            count: self.count,
        }
    }
}

impl Line {
    // The row itself.
    pub fn row(self) -> Row
        ensures { result ≡ row_in self }
    {
        match self {
            Line::Open(mark, name) => Row::Open(mark, name.name()),
            Line::Close(name) => Row::Close(name.name()),
            Line::Field(line) => Row::Field(FieldRow {
                mark: line.mark,
                tag: line.tag,
                qualifiers: line.qualifiers.list(),
                format: line.format,
            }),
        }
    }
}

// The rows of an instruction, 565.
pub const INSTRUCTION_ROWS: &[Line] = &[
    Line::Open(Mark::Once, GENL_BLOCK),
    Line::Field(FieldLine {
        mark: Mark::Once,
        tag: TAG_20C,
        qualifiers: ONLY_CORP,
        format: Format::Reference,
    }),
    Line::Field(FieldLine {
        mark: Mark::Once,
        tag: TAG_20C,
        qualifiers: ONLY_SEME,
        format: Format::Reference,
    }),
    Line::Field(FieldLine {
        mark: Mark::Once,
        tag: TAG_23G,
        qualifiers: NO_QUALIFIER,
        format: Format::Code,
    }),
    Line::Field(FieldLine {
        mark: Mark::Once,
        tag: TAG_22F,
        qualifiers: ONLY_CAEV,
        format: Format::Code,
    }),
    Line::Field(FieldLine {
        mark: Mark::AtMostOnce,
        tag: TAG_98C,
        qualifiers: ONLY_PREP,
        format: Format::Timestamp,
    }),
    Line::Open(Mark::AtMostOnce, LINK_BLOCK),
    Line::Field(FieldLine {
        mark: Mark::Once,
        tag: TAG_13A,
        qualifiers: ONLY_LINK,
        format: Format::Code,
    }),
    Line::Field(FieldLine {
        mark: Mark::Once,
        tag: TAG_20C,
        qualifiers: ONLY_PREV,
        format: Format::Reference,
    }),
    Line::Close(LINK_BLOCK),
    Line::Close(GENL_BLOCK),
    Line::Open(Mark::Once, USECU_BLOCK),
    Line::Field(FieldLine {
        mark: Mark::Once,
        tag: TAG_35B,
        qualifiers: NO_QUALIFIER,
        format: Format::Isin,
    }),
    Line::Open(Mark::Once, ACCTINFO_BLOCK),
    Line::Field(FieldLine {
        mark: Mark::Once,
        tag: TAG_97A,
        qualifiers: ONLY_SAFE,
        format: Format::Account,
    }),
    Line::Close(ACCTINFO_BLOCK),
    Line::Close(USECU_BLOCK),
    Line::Open(Mark::Once, BENODET_BLOCK),
    Line::Field(FieldLine {
        mark: Mark::Once,
        tag: TAG_95V,
        qualifiers: ONLY_OWND,
        format: Format::Owner,
    }),
    Line::Field(FieldLine {
        mark: Mark::AtLeastOnce,
        tag: TAG_95S,
        qualifiers: ONLY_ALTE,
        format: Format::AlternateIdentifier,
    }),
    Line::Field(FieldLine {
        mark: Mark::Once,
        tag: TAG_36B,
        qualifiers: ONLY_OWND,
        format: Format::Quantity,
    }),
    Line::Close(BENODET_BLOCK),
    Line::Open(Mark::Once, CAINST_BLOCK),
    Line::Field(FieldLine {
        mark: Mark::Once,
        tag: TAG_13A,
        qualifiers: ONLY_CAON,
        format: Format::OptionNumber,
    }),
    Line::Field(FieldLine {
        mark: Mark::Once,
        tag: TAG_22F,
        qualifiers: ONLY_CAOP,
        format: Format::Code,
    }),
    Line::Field(FieldLine {
        mark: Mark::Once,
        tag: TAG_36B,
        qualifiers: ONLY_QINS,
        format: Format::Quantity,
    }),
    Line::Field(FieldLine {
        mark: Mark::AnyNumber,
        tag: TAG_70E,
        qualifiers: ONLY_INST,
        format: Format::Vote,
    }),
    Line::Close(CAINST_BLOCK),
];

// The rows of a status, 567.
pub const STATUS_ROWS: &[Line] = &[
    Line::Open(Mark::Once, GENL_BLOCK),
    Line::Field(FieldLine {
        mark: Mark::Once,
        tag: TAG_20C,
        qualifiers: ONLY_CORP,
        format: Format::Reference,
    }),
    Line::Field(FieldLine {
        mark: Mark::Once,
        tag: TAG_20C,
        qualifiers: ONLY_SEME,
        format: Format::Reference,
    }),
    Line::Field(FieldLine {
        mark: Mark::Once,
        tag: TAG_23G,
        qualifiers: NO_QUALIFIER,
        format: Format::Code,
    }),
    Line::Field(FieldLine {
        mark: Mark::Once,
        tag: TAG_22F,
        qualifiers: ONLY_CAEV,
        format: Format::Code,
    }),
    Line::Field(FieldLine {
        mark: Mark::Once,
        tag: TAG_98C,
        qualifiers: ONLY_PREP,
        format: Format::Timestamp,
    }),
    Line::Open(Mark::Once, LINK_BLOCK),
    Line::Field(FieldLine {
        mark: Mark::Once,
        tag: TAG_13A,
        qualifiers: ONLY_LINK,
        format: Format::Code,
    }),
    Line::Field(FieldLine {
        mark: Mark::Once,
        tag: TAG_20C,
        qualifiers: ONLY_RELA,
        format: Format::Reference,
    }),
    Line::Close(LINK_BLOCK),
    Line::Open(Mark::Once, STAT_BLOCK),
    Line::Field(FieldLine {
        mark: Mark::Once,
        tag: TAG_25D,
        qualifiers: STATUSES,
        format: Format::Code,
    }),
    Line::Open(Mark::AnyNumber, REAS_BLOCK),
    Line::Field(FieldLine {
        mark: Mark::Once,
        tag: TAG_24B,
        qualifiers: REASONS,
        format: Format::Code,
    }),
    Line::Close(REAS_BLOCK),
    Line::Close(STAT_BLOCK),
    Line::Close(GENL_BLOCK),
];
