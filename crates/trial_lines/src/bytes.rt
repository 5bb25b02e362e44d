//! Bytes in hexadecimal, as a line writes them.
#[cfg(test)]
mod tests {
    use journal::{Call, Fault, read_line};
    use std::test::Fail;

    // The bytes of the event that a line writes.
    fn bytes_of(rt: &HostRuntime, line: &str) -> Result<Vec<u8>, Fault> {
        match read_line(rt.alloc(), line)? {
            Some(Call::Event(bytes)) => Ok(bytes),
            _ => Err(Fault::Call),
        }
    }

    #[test]
    fn a_pair_of_digits_may_stand_in_two_words(rt: HostRuntime) -> Result<(), Fail> {
        for line in [
            "event 0E7fA0",
            "event 0e 7F a0",
            "event 0E7\tfA 0",
            "event 0 E 7 f A 0 ",
            " event  0E7F  A0",
        ] {
            let bytes = bytes_of(&rt, line)?;
            assert!(rt;
                bytes.as_slice() == b"\x0e\x7f\xa0".as_slice(),
                "the bytes of a line"
            );
        }
        Ok(())
    }

    #[test]
    fn an_event_alone_is_the_empty_input(rt: HostRuntime) -> Result<(), Fail> {
        assert!(rt; bytes_of(&rt, "event")?.is_empty());
        assert!(rt; bytes_of(&rt, "event  ")?.is_empty());
        Ok(())
    }

    #[test]
    fn a_digit_without_its_other_is_refused(rt: HostRuntime) {
        for line in [
            "event 0",
            "event 0E0",
            "event 0E 0",
            "event 0 E 0",
            "event 00 E",
        ] {
            assert!(rt; bytes_of(&rt, line).is_err_and(|fault| fault == Fault::Hexadecimal));
        }
    }

    #[test]
    fn what_is_no_digit_is_refused(rt: HostRuntime) {
        for line in [
            "event 0g",
            "event G0",
            "event /0",
            "event 0:",
            "event @0",
            "event 0`",
            "event 0x0E",
            "event 0E,7F",
            "event 0\u{e9}",
        ] {
            assert!(rt; bytes_of(&rt, line).is_err_and(|fault| fault == Fault::Hexadecimal));
        }
    }
}
