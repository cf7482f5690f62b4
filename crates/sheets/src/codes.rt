// The codes of the two sheets, each under the qualifier that it stands with.
ghost use Rattle.std.specs.Prelude.{◌≡◌, map};
ghost use Rattle.sheets.specs.Codes.{among, paired, listed};

use crate::names::{CAEV, CAND, CANP, CAOP, CPRC, IPRC, LINK, PACK, PEND, REJT};
use fields::headers::Qualifier;

// What an instruction is for, and what a status is of.
pub const INSTRUCTION_FUNCTIONS: &[&[u8]] = &[b"NEWM", b"CANC"];

pub const STATUS_FUNCTIONS: &[&[u8]] = &[b"INST", b"CAST"];

// The events of a meeting, the option of a split vote, and the number of the message that is linked to.
const EVENTS: &[&[u8]] = &[b"MEET", b"XMET"];

const OPTIONS: &[&[u8]] = &[b"SPLI"];

const LINKED: &[&[u8]] = &[b"565"];

// The pairs of 25D, and then those of 24B: which code stands under which qualifier.
const PAIRS: &[(Qualifier, &[u8])] = &[
    (CPRC, b"CAND"),
    (CPRC, b"CANP"),
    (CPRC, b"PACK"),
    (CPRC, b"REJT"),
    (IPRC, b"CAND"),
    (IPRC, b"DFLA"),
    (IPRC, b"PACK"),
    (IPRC, b"PEND"),
    (IPRC, b"REJT"),
    (IPRC, b"STIN"),
    (PEND, b"ADEA"),
    (PEND, b"AUTH"),
    (PEND, b"BSTR"),
    (PEND, b"CERT"),
    (PEND, b"DQCS"),
    (PEND, b"DQUA"),
    (PEND, b"FULL"),
    (PEND, b"IPAW"),
    (PEND, b"LACK"),
    (PEND, b"LATE"),
    (PEND, b"MCER"),
    (PEND, b"MONY"),
    (PEND, b"NARR"),
    (PEND, b"NPAY"),
    (PEND, b"NSEC"),
    (PEND, b"PENR"),
    (PEND, b"SNAV"),
    (PEND, b"VLDA"),
    (PEND, b"ITAX"),
    (PEND, b"MTAX"),
    (PEND, b"NTAX"),
    (REJT, b"ULNK"),
    (REJT, b"ADEA"),
    (REJT, b"BSTR"),
    (REJT, b"CANC"),
    (REJT, b"CERT"),
    (REJT, b"DCAN"),
    (REJT, b"DPRG"),
    (REJT, b"NARR"),
    (REJT, b"LACK"),
    (REJT, b"LATE"),
    (REJT, b"SAFE"),
    (REJT, b"DSEC"),
    (REJT, b"DQUA"),
    (REJT, b"DUPL"),
    (REJT, b"INIR"),
    (REJT, b"INTV"),
    (REJT, b"INVA"),
    (REJT, b"REFT"),
    (REJT, b"EVNM"),
    (REJT, b"NMTY"),
    (REJT, b"OPNM"),
    (REJT, b"OPTY"),
    (REJT, b"PROI"),
    (REJT, b"PRON"),
    (REJT, b"PROT"),
    (REJT, b"FULL"),
    (REJT, b"DQCS"),
    (REJT, b"DQAM"),
    (REJT, b"DQCC"),
    (REJT, b"DQBI"),
    (REJT, b"DQBV"),
    (REJT, b"IRDQ"),
    (REJT, b"ISOL"),
    (REJT, b"ITAX"),
    (REJT, b"SHAR"),
    (REJT, b"TRTI"),
    (REJT, b"MTAX"),
    (REJT, b"NTAX"),
    (REJT, b"IPAW"),
    (REJT, b"REJA"),
    (CAND, b"CANI"),
    (CAND, b"CANO"),
    (CAND, b"CANS"),
    (CAND, b"CSUB"),
    (CAND, b"NARR"),
    (CANP, b"ADEA"),
    (CANP, b"DQUA"),
    (CANP, b"DQCS"),
    (CANP, b"LATE"),
    (CANP, b"NARR"),
    (PACK, b"NARR"),
    (PACK, b"NSTP"),
];

// Is the code one of those?
pub fn is_among(codes: &[&[u8]], code: &[u8]) -> bool
    ensures { result ≡ among (map (λ k. k.now) codes.now) code.now }
{
    codes.contains(&code)
}

// Do the qualifier and the code stand together in one of the pairs?
fn is_paired(pairs: &[(Qualifier, &[u8])], qualifier: Qualifier, code: &[u8]) -> bool
    ensures { result ≡ paired (map (λ p. (p.0, p.1.now)) pairs.now) qualifier code.now }
{
    pairs.contains(&(qualifier, code))
}

// May the code stand under the qualifier?
pub fn stands_under(qualifier: Qualifier, code: &[u8]) -> bool
    ensures { result ≡ listed qualifier code.now }
{
    match qualifier {
        CAEV => is_among(EVENTS, code),
        CAOP => is_among(OPTIONS, code),
        LINK => is_among(LINKED, code),
        _ => is_paired(PAIRS, qualifier, code),
    }
}
