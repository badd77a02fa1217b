// The worked cases, on one contract and as tests: numbers, cells, the worked rule whole and damaged, the lent lists and the making, and what the program prints.
#![tactic(auto)]

pub mod cases;
#[cfg(test)]
mod drafts;
#[cfg(test)]
mod small;
#[cfg(test)]
mod trees;

#[cfg(test)]
mod tests {
    use codec::fault::Report;
    use codec::reader::Reader;
    use events::events_of;
    use listing::output::output;
    use rulefile::card::Card;
    use rulefile::check::check_rule;
    use rulefile::draft::make::make_draft;
    use rulefile::record::StateRecord;
    use rules::Move;
    use std::test::Fail;

    // The worked rule: three named lines and three nameless ones, four states and seven moves.
    pub(crate) const RULE: [u8; 53] = [
        1, 10, 20, 1, 97, 5, 50, 1, 98, 20, 50, 1, 99, 1, 50, 0, 1, 50, 0, 1, 50, 0, 4, 1, 0, 2, 0,
        2, 0, 2, 0, 7, 0, 1, 1, 0, 5, 2, 0, 6, 1, 0, 9, 3, 1, 27, 1, 2, 27, 2, 3, 27, 3,
    ];

    // A version that there is not.
    const OTHER_VERSION: [u8; 3] = [2, 10, 20];

    // Two line cards and no more.
    const TWO_LINES: [u8; 9] = [1, 10, 20, 1, 97, 5, 50, 1, 98];

    // What a fault tells of the number at the front of the bytes, or nothing where it is read.
    fn number_fault(bytes: &[u8]) -> Option<Report> {
        let mut reader = Reader { bytes, at: 0 };
        reader.read_number().err().map(|fault| fault.report())
    }

    #[test]
    fn numbers(rt: HostRuntime) -> Result<(), Fail> {
        let mut reader = Reader {
            bytes: &[0xe6, 0x03],
            at: 0,
        };
        let number = reader.read_number().ok().ok_or("a number is refused")?;
        assert_eq!(rt; number, 486);
        assert_eq!(rt; reader.at, 2);
        let long = number_fault(&[0x80, 0x00]).ok_or("read")?;
        assert_eq!(rt; long.number, 12);
        assert_eq!(rt; long.place, 0);
        let short = number_fault(&[0xe6]).ok_or("read")?;
        assert_eq!(rt; short.number, 11);
        assert_eq!(rt; short.place, 1);
        Ok(())
    }

    #[test]
    fn cells(rt: HostRuntime) {
        assert_eq!(rt; events_of(0), 0xffff_ffff_ffff_ffff);
        assert_eq!(rt; events_of(1), 0xaaaa_aaaa_aaaa_aaaa);
        assert_eq!(rt; events_of(364), 1 << 63);
        assert_eq!(rt; events_of(728), 1);
        assert_eq!(rt; events_of(729), 0);
    }

    #[test]
    fn worked_rule(rt: HostRuntime) -> Result<(), Fail> {
        let mut states = [StateRecord::default(); 32];
        let mut moves = [Move::default(); 1024];
        let counts = check_rule(&RULE, &mut states, &mut moves)
            .ok()
            .ok_or("the worked rule is refused")?;
        assert_eq!(rt; counts.states, 4);
        assert_eq!(rt; counts.moves, 7);
        let draft = make_draft(&RULE, &states, &moves);
        let Some(Card::Line(line)) = draft.card(1) else {
            return Err(Fail::new("card 1 is a line"));
        };
        assert_eq!(rt; line.value.cost, 5);
        assert!(rt; line.name == b"b".as_slice());
        let Some(Card::State(state)) = draft.card(6) else {
            return Err(Fail::new("card 6 is a state"));
        };
        assert!(rt; state.value.start && !state.value.accepting);
        let Some(Card::Move(last)) = draft.card(16) else {
            return Err(Fail::new("card 16 is a move"));
        };
        assert_eq!(rt; last.cell, 27);
        assert!(rt; draft.card(17).is_none());
        Ok(())
    }

    #[test]
    fn short_lists(rt: HostRuntime) -> Result<(), Fail> {
        let mut few_states = [StateRecord::default(); 31];
        let mut states = [StateRecord::default(); 32];
        let mut few_moves = [Move::default(); 1023];
        let first = check_rule(&[], &mut few_states, &mut few_moves)
            .err()
            .ok_or("31 state records are enough")?;
        assert_eq!(rt; first.number(), 21);
        let second = check_rule(&[], &mut states, &mut few_moves)
            .err()
            .ok_or("1,023 move records are enough")?;
        assert_eq!(rt; second.number(), 22);
        Ok(())
    }

    // The check wrote no record, so the making gives the draft of one nameless start state and no moves.
    #[test]
    fn lists_not_written(rt: HostRuntime) -> Result<(), Fail> {
        let states = [StateRecord::default(); 32];
        let moves = [Move::default(); 1024];
        let draft = make_draft(&RULE, &states, &moves);
        assert_eq!(rt; draft.states().len(), 1);
        assert_eq!(rt; draft.moves().len(), 0);
        let only = draft.state(0).ok_or("no state")?;
        assert!(rt; only.value.start && only.name.is_empty());
        Ok(())
    }

    // What the program prints of these files; nothing where there is no memory.
    fn printed(rt: &HostRuntime, rule: Option<&[u8]>, log: Option<&[u8]>) -> Result<String, Fail> {
        Ok(output(rt.alloc(), rule, log)?)
    }

    #[test]
    fn other_version(rt: HostRuntime) -> Result<(), Fail> {
        let other = printed(&rt, Some(&OTHER_VERSION), None)?;
        assert_eq!(rt; other.as_str(), "refused 13 at 0\n");
        Ok(())
    }

    #[test]
    fn cut_rule(rt: HostRuntime) -> Result<(), Fail> {
        let cut = printed(&rt, Some(&TWO_LINES), None)?;
        assert_eq!(rt; cut.as_str(), "refused 11 at 9\n");
        Ok(())
    }

    #[test]
    fn missing_files(rt: HostRuntime) -> Result<(), Fail> {
        let no_log = printed(&rt, Some(&RULE), None)?;
        assert_eq!(rt; no_log.as_str(), "refused 24\n");
        let no_rule = printed(&rt, None, None)?;
        assert_eq!(rt; no_rule.as_str(), "refused 24\n");
        Ok(())
    }

    #[test]
    fn damaged_log(rt: HostRuntime) -> Result<(), Fail> {
        let log = [5, 8, 64];
        let bad_log = printed(&rt, Some(&RULE), Some(&log))?;
        assert_eq!(rt; bad_log.as_str(), "refused 13 at 2\n");
        Ok(())
    }
}
