// Examples of writings, refused for each reason that an entry can have, and finished. The expected answers are worked out by hand.
#![tactic(auto)]

#[cfg(test)]
mod tests {
    use reader::table::Entry;
    use writer::faults::WritingFault;
    use writer::filing::{FilingFault, refile};
    use writer::writing::write;

    // What the entries below point into: GENL at 0, CORP//E1 at 4, CORP:E1 at 12, SEME/A at 19, a part in which a field begins at 25.
    const BYTES: &[u8] = b"GENLCORP//E1CORP:E1SEME/AA\r\n:B";

    const GOOD: Entry = Entry {
        row: 0,
        start: 0,
        len: 4,
    };

    // An entry of the instruction's sheet that cannot be spelled.
    const BAD: [Entry; 9] = [
        // no row
        Entry {
            row: 28,
            start: 0,
            len: 4,
        },
        Entry {
            row: usize::MAX,
            start: 0,
            len: 4,
        },
        // a part that is not inside the bytes
        Entry {
            row: 3,
            start: 31,
            len: 0,
        },
        Entry {
            row: 3,
            start: 30,
            len: 1,
        },
        Entry {
            row: 3,
            start: usize::MAX,
            len: usize::MAX,
        },
        // not the block's name
        Entry {
            row: 0,
            start: 4,
            len: 4,
        },
        // a qualifier without its slash, and one of another row
        Entry {
            row: 1,
            start: 12,
            len: 7,
        },
        Entry {
            row: 1,
            start: 19,
            len: 6,
        },
        // a colon behind a CR LF
        Entry {
            row: 3,
            start: 25,
            len: 5,
        },
    ];

    #[test]
    fn entries_that_cannot_be_spelled(rt: HostRuntime) {
        for bad in &BAD {
            let mut out = [7u8; 3];
            assert_eq!(rt;
                write(565, &[*bad], BYTES, &mut out),
                Err(WritingFault::Entry(0))
            );
            assert_eq!(rt; out[0] + out[1] + out[2], 0);
            assert_eq!(rt;
                write(565, &[GOOD, *bad], BYTES, &mut out),
                Err(WritingFault::Entry(1))
            );
        }
    }

    #[test]
    fn other_refusals(rt: HostRuntime) {
        let mut out = [7u8; 3];
        assert_eq!(rt;
            write(566, &[GOOD], BYTES, &mut out),
            Err(WritingFault::MessageNumber)
        );
        assert_eq!(rt; write(565, &[], BYTES, &mut out), Err(WritingFault::Length));
        // the text spelled is one field, and ends too early
        assert_eq!(rt;
            write(565, &[GOOD], BYTES, &mut out),
            Err(WritingFault::Order(11))
        );
        assert_eq!(rt;
            write(567, &[GOOD, GOOD], BYTES, &mut out),
            Err(WritingFault::Order(11))
        );
    }

    const STATUS: &[u8] =
        b":16R:GENL\r\n:20C::CORP//E1\r\n:20C::SEME//A2\r\n:23G:CAST\r\n:22F::CAEV//MEET\r\n:98C::PREP//20260615111500\r\n:16R:LINK\r\n:13A::LINK//565\r\n:20C::RELA//A1\r\n:16S:LINK\r\n:16R:STAT\r\n:25D::CPRC//CAND\r\n:16S:STAT\r\n:16S:GENL\r\n";

    #[test]
    fn filed_unchanged(rt: HostRuntime) {
        let mut table = [GOOD; 14];
        let mut out = [7u8; 300];
        let len = STATUS.len();
        assert_eq!(rt; refile(567, STATUS, &mut table, &mut out), Ok(len));
        assert!(rt; len < 300);
        assert_eq!(rt; &out[0..len], STATUS);
        assert_eq!(rt; out[len], 7);
        assert_eq!(rt;
            refile(567, STATUS, &mut table, &mut out[0..len - 1]),
            Err(FilingFault::Writing(WritingFault::Output))
        );
        assert_eq!(rt; out[0], 0);
    }
}
