// Examples of texts at the edges of the rules. The expected answers are worked out by hand.
#![tactic(auto)]

#[cfg(test)]
mod tests {
    use fields::faults::{TextFault, check_text};
    use fields::walk::{Fields, field_count, value_of};
    use std::test::Fail;

    // A text that may be cut, and how many fields it has.
    struct Good(&'static [u8], usize);

    const GOOD: [Good; 9] = [
        Good(b":16R:\r\n", 1),
        Good(b":16R:GENL\r\n", 1),
        Good(b":16S:GENL\r\n", 1),
        Good(b":23G:NEWM\r\n", 1),
        Good(b":35B:ISIN RU0009100762\r\n", 1),
        Good(b":20C::SEME/\r\n", 1),
        Good(
            b":20C::SEME//A1\r\n:70E::INST//A\r\nB\r\nC\r\n:16S:GENL\r\n",
            3,
        ),
        Good(b":16R:A\r\n :20C::SEME//A\r\n", 1),
        Good(b":16R:A\r\n/-:\r\n:16S:A\r\n", 2),
    ];

    // A text that may not be cut, and why.
    struct Bad(&'static [u8], TextFault);

    const BAD: [Bad; 33] = [
        // nothing, and what is not of set x
        Bad(b"", TextFault::Length),
        Bad(b"\r", TextFault::Character(0)),
        Bad(b"\n", TextFault::Character(0)),
        Bad(b"\n:16R:A\r\n", TextFault::Character(0)),
        Bad(b":16R:A\r", TextFault::Character(6)),
        Bad(b":16R:A\r\r\n", TextFault::Character(6)),
        Bad(b":16R:A\r\n\n", TextFault::Character(8)),
        Bad(b":16R:A\n", TextFault::Character(6)),
        Bad(b":16R:A\t\r\n", TextFault::Character(6)),
        Bad(b":16R:\xC0\r\n", TextFault::Character(5)),
        Bad(b":16R:A_B\r\n", TextFault::Character(6)),
        // the first question that fails gives the answer
        Bad(b"A\x00", TextFault::Character(1)),
        // lines
        Bad(b"\r\n", TextFault::Line(0)),
        Bad(b"A", TextFault::Line(0)),
        Bad(b"A\r\n", TextFault::Line(0)),
        Bad(b"-\r\n", TextFault::Line(0)),
        Bad(b":16R:A\r\n-B\r\n", TextFault::Line(8)),
        Bad(b":16R:A\r\n\r\n", TextFault::Line(8)),
        Bad(b":16R:A\r\nB", TextFault::Line(8)),
        // a header cut at each of its bytes
        Bad(b":\r\n", TextFault::Line(0)),
        Bad(b":2\r\n", TextFault::Line(0)),
        Bad(b":20\r\n", TextFault::Line(0)),
        Bad(b":20C\r\n", TextFault::Line(0)),
        Bad(b":20C:\r\n", TextFault::Line(0)),
        Bad(b":20C::\r\n", TextFault::Line(0)),
        Bad(b":20C::SEM\r\n", TextFault::Line(0)),
        Bad(b":20C::SEME\r\n", TextFault::Line(0)),
        // headers that are whole and wrong
        Bad(b":20c::SEME//A\r\n", TextFault::Line(0)),
        Bad(b":2AC::SEME//A\r\n", TextFault::Line(0)),
        Bad(b":20C::SeME//A\r\n", TextFault::Line(0)),
        Bad(b":20C:SEME//A\r\n", TextFault::Line(0)),
        Bad(b":20C::SEME.A\r\n", TextFault::Line(0)),
        Bad(b":16R:A\r\n:16T:A\r\n", TextFault::Line(8)),
    ];

    #[test]
    fn texts_at_the_edges(rt: HostRuntime) {
        for Good(text, count) in &GOOD {
            assert_eq!(rt; check_text(text), Ok(()));
            assert_eq!(rt; field_count(text), *count);
        }
        for Bad(text, fault) in &BAD {
            assert_eq!(rt; check_text(text), Err(*fault));
        }
    }

    #[test]
    fn longest_text(rt: HostRuntime) {
        let mut text = [b'A'; 10_001];
        text[0] = b':';
        text[1] = b'1';
        text[2] = b'6';
        text[3] = b'R';
        text[4] = b':';
        text[9_998] = b'\r';
        text[9_999] = b'\n';
        assert_eq!(rt; check_text(&text[0..10_000]), Ok(()));
        assert_eq!(rt; check_text(&text), Err(TextFault::Length));
    }

    #[test]
    fn value_with_its_continuation(rt: HostRuntime) -> Result<(), Fail> {
        let text = b":16R:GENL\r\n:20C::CORP//E1\r\nMORE\r\n:16S:GENL\r\n";
        let mut fields = Fields::of(text);
        let first = fields.next().ok_or("no field")?;
        assert_eq!(rt; value_of(text, first), b"GENL".as_slice());
        let second = fields.next().ok_or("no field")?;
        assert_eq!(rt; second.start, 11);
        assert_eq!(rt; value_of(text, second), b"CORP//E1\r\nMORE".as_slice());
        Ok(())
    }
}
