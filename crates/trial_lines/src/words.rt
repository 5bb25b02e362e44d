//! The words of the other calls.
#[cfg(test)]
mod tests {
    use journal::{Call, Exchanges, Fault, Spending, StoreKind, Visitor, read_line};
    use std::test::Fail;

    // The register that a line starts.
    fn visitor_of(rt: &HostRuntime, line: &str) -> Result<Visitor, Fault> {
        match read_line(rt.alloc(), line)? {
            Some(Call::Visitor(visitor)) => Ok(visitor),
            _ => Err(Fault::Call),
        }
    }

    // What becomes of an invoke, and of which dialogue.
    fn spending_of(rt: &HostRuntime, line: &str) -> Result<(Spending, u32), Fault> {
        match read_line(rt.alloc(), line)? {
            Some(Call::Spend(spending, dialogue)) => Ok((spending, dialogue)),
            _ => Err(Fault::Call),
        }
    }

    #[test]
    fn a_visitor_line_is_read_word_by_word(rt: HostRuntime) -> Result<(), Fail> {
        let one = visitor_of(&rt, "visitor one 4294967295 rows 65536")?;
        assert_eq!(rt;
            one,
            Visitor {
                exchanges: Exchanges::One,
                last: u32::MAX,
                store: StoreKind::Rows,
                room: 65_536,
            }
        );
        let several = visitor_of(&rt, "visitor several 0 tree 0")?;
        assert_eq!(rt;
            several,
            Visitor {
                exchanges: Exchanges::Several,
                last: 0,
                store: StoreKind::Tree,
                room: 0,
            }
        );
        Ok(())
    }

    #[test]
    fn another_visitor_line_is_refused(rt: HostRuntime) {
        for line in [
            "visitor",
            "visitor two 0 rows 5",
            "visitor one 4294967296 rows 5",
            "visitor one 0 heap 5",
            "visitor one 0 rows 65537",
            "visitor one 0 rows",
            "visitor one 0 rows 5 6",
        ] {
            assert!(rt; visitor_of(&rt, line).is_err_and(|fault| fault == Fault::Visitor));
        }
    }

    #[test]
    fn an_invoke_is_spent_by_its_number(rt: HostRuntime) -> Result<(), Fail> {
        assert!(rt; spending_of(&rt, "send 7")? == (Spending::Send, 7));
        assert!(rt; spending_of(&rt, "withdraw 4294967295")? == (Spending::Withdraw, u32::MAX));
        for line in [
            "send",
            "send x",
            "send 1 2",
            "withdraw 4294967296",
            "withdraw -1",
        ] {
            assert!(rt; spending_of(&rt, line).is_err_and(|fault| fault == Fault::Dialogue));
        }
        Ok(())
    }

    #[test]
    fn blank_lines_and_comments_ask_for_nothing(rt: HostRuntime) -> Result<(), Fail> {
        for line in ["", "  \t", "# event 0E", "#"] {
            assert!(rt; read_line(rt.alloc(), line)?.is_none());
        }
        Ok(())
    }
}
