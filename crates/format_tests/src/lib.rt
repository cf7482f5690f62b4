// The formats at their edges, as tables of values with what they spell.
#![tactic(auto)]

#[cfg(test)]
mod tests {
    use format::identifiers::*;
    use format::quantities::*;
    use format::simple::*;
    use format::votes::*;

    #[test]
    fn quantities_and_votes(rt: HostRuntime) {
        let quantities: [(&[u8], Option<u64>); 7] = [
            (b"UNIT/1,", Some(1)),
            (b"UNIT/100000000000,", Some(100_000_000_000)),
            (b"UNIT/100000000001,", None),
            (b"UNIT/0,", None),
            (b"UNIT/01,", None),
            (b"UNIT/1", None),
            (b"UNIT/1,0", None),
        ];
        for (value, expected) in quantities {
            assert_eq!(rt; quantity(value), expected);
        }
        let votes: [(&[u8], Option<u64>); 10] = [
            // 35 characters on one line
            (b"ISLB/1./TYPE/ORDN/RSLT/CONY/QVTG/10", Some(10)),
            (b"ISLB/1./TYPE/ORDN/RSLT/CONY/QVTG/10\r\n", None),
            // 37 characters on two lines, and on one
            (b"ISLB/1./TYPE/ORDN/RSLT/CONY/QVTG/10\r\n00", Some(1000)),
            (b"ISLB/1./TYPE/ORDN/RSLT/CONY/QVTG/1000", None),
            (b"ISLB/12.34/TYPE/CMLT/RSLT/ABST/QVT\r\nG/5", None),
            // 15 digits and 16
            (
                b"ISLB/1./TYPE/ORDN/RSLT/CONN/QVTG/99\r\n9999999999999",
                Some(999_999_999_999_999),
            ),
            (
                b"ISLB/1./TYPE/ORDN/RSLT/CONN/QVTG/10\r\n00000000000000",
                None,
            ),
            (b"ISLB/1./TYPE/ORDN/RSLT/CONY/QVTG/0", None),
            (b"ISLB/1.0/TYPE/ORDN/RSLT/CONY/QVTG/1", None),
            (b"ISLB/100./TYPE/ORDN/RSLT/CONY/QVTG/\r\n1", None),
        ];
        for (value, expected) in votes {
            assert_eq!(rt; vote(value).map(|text| text.quantity), expected);
        }
        let whole = VoteText {
            question: 12,
            candidate: Some(34),
            kind: VoteKind::Cumulative,
            answer: VoteAnswer::Abstain,
            quantity: 123_456_789_012_345,
        };
        assert_eq!(rt;
            vote(b"ISLB/12.34/TYPE/CMLT/RSLT/ABST/QVTG\r\n/123456789012345"),
            Some(whole)
        );
    }

    #[derive(Clone, Copy)]
    enum Form {
        Reference,
        Account,
        Timestamp,
        OptionNumber,
        Isin,
        IsinCode,
        Owner,
    }

    fn has_form(value: &[u8], form: Form) -> bool {
        match form {
            Form::Reference => is_reference(value),
            Form::Account => is_account(value),
            Form::Timestamp => is_timestamp(value),
            Form::OptionNumber => is_option_number(value),
            Form::Isin => is_isin(value),
            Form::IsinCode => is_isin_code(value),
            Form::Owner => is_owner(value),
        }
    }

    #[test]
    fn texts_and_identifiers(rt: HostRuntime) {
        let texts: [(&[u8], Form, bool); 17] = [
            (b"", Form::Reference, false),
            (b"A/-?:().,'+ z09", Form::Reference, true),
            (b"1234567890123456", Form::Reference, true),
            (b"12345678901234567", Form::Reference, false),
            (b"A;B", Form::Reference, false),
            (b"12345678901234567890123456789012345", Form::Account, true),
            (
                b"123456789012345678901234567890123456",
                Form::Account,
                false,
            ),
            (b"20260101120000", Form::Timestamp, true),
            (b"2026010112000A", Form::Timestamp, false),
            (b"00A", Form::OptionNumber, true),
            (b"00a", Form::OptionNumber, false),
            (b"ISIN US0378331005", Form::Isin, true),
            (b"US0378331005", Form::Isin, false),
            (b"US0378331005", Form::IsinCode, true),
            (
                b"1\r\n2\r\n3\r\n4\r\n5\r\n6\r\n7\r\n8\r\n9\r\n10",
                Form::Owner,
                true,
            ),
            (
                b"1\r\n2\r\n3\r\n4\r\n5\r\n6\r\n7\r\n8\r\n9\r\n10\r\n11",
                Form::Owner,
                false,
            ),
            (b"ONE\r\n", Form::Owner, false),
        ];
        for (value, form, expected) in texts {
            assert_eq!(rt; has_form(value, form), expected);
        }
        let identifiers: [(&[u8], Option<usize>); 6] = [
            (b"ALTE//CORP/US/X 1", Some(14)),
            (b"ALTE/NSDR/CORP/US/X 1", Some(18)),
            (b"ALTE/NSDX/CORP/US/X 1", None),
            (b"ALTE//CORP/us/X 1", None),
            (b"ALTE//CORP/US/123456789012345678901234567890", Some(14)),
            (b"ALTE//CORP/US/1234567890123456789012345678901", None),
        ];
        for (value, expected) in identifiers {
            assert_eq!(rt; identifier(value).map(|parts| parts.start), expected);
        }
    }
}
