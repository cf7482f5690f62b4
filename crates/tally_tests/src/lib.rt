// The two tallies side by side, run on examples.
#![tactic(auto)]

#[cfg(test)]
mod tests {
    use tally::ballot::Ballot;
    use tally::both::Both;
    use tally::control::ControlTotal;
    use tally::interface::Tally;
    use tally::lists::{add_all, take_back_all};
    use tally::vote::Vote;

    fn pair() -> Both<Ballot, ControlTotal> {
        Both::new(Ballot::new(), ControlTotal::new())
    }

    fn vote(question: u8, cell: u8, quantity: u64) -> Vote {
        Vote {
            question,
            cell,
            quantity,
        }
    }

    #[test]
    fn what_is_added_can_be_taken_back(rt: HostRuntime) {
        let votes = [
            vote(2, 1, 2000),
            vote(2, 2, 1000),
            vote(32, 16, u64::MAX),
            vote(33, 1, 7),
        ];
        let mut tally = pair();
        add_all(&mut tally, &votes);
        tally.add(vote(32, 16, 5));
        assert_eq!(rt; tally.first().figure(2, 1), Some(2000));
        assert_eq!(rt; tally.first().figure(32, 16), Some(4));
        assert_eq!(rt; tally.second().total(), 8_705_658_071);
        take_back_all(&mut tally, &[votes[3], votes[2], votes[1], votes[0]]);
        assert_eq!(rt; tally.first().figure(2, 1), Some(0));
        assert_eq!(rt; tally.first().figure(32, 16), Some(5));
        assert_eq!(rt; tally.second().total(), 160);
        tally.clear();
        assert_eq!(rt; tally.second().total(), 0);
    }

    #[test]
    fn each_cell_counts_for_itself(rt: HostRuntime) {
        let edges = [(1u8, 1u8), (1, 16), (16, 8), (32, 1), (32, 16)];
        for (question, cell) in edges {
            let mut ballot = Ballot::new();
            ballot.add(vote(question, cell, 3));
            for (q, c) in edges {
                let expected = if q == question && c == cell { 3 } else { 0 };
                assert_eq!(rt; ballot.figure(q, c), Some(expected));
            }
        }
        let ballot = Ballot::new();
        for (question, cell) in [(0u8, 1u8), (33, 1), (1, 0), (1, 17), (255, 255)] {
            assert_eq!(rt; ballot.figure(question, cell), None);
        }
    }

    #[test]
    fn a_pair_tells_what_either_tells(rt: HostRuntime) {
        let mut tally = pair();
        tally.add(vote(2, 1, 2000));
        assert_eq!(rt; tally.tell_figure(2, 1), Some(2000));
        assert_eq!(rt; tally.tell_figure(33, 1), None);
        assert_eq!(rt; tally.tell_total(), Some(4000));
        assert_eq!(rt; tally.first().tell_total(), None);
        assert_eq!(rt; tally.second().tell_figure(2, 1), None);
    }
}
