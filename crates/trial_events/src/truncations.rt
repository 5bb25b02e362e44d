//! Every event cut short at every byte, and with bytes behind it.
// Where a loop goes over numbers, the number is the case that is tried.
#[cfg(test)]
mod tests {
    use crate::samples::*;
    use key::Refusal;
    use std::test::Fail;

    #[test]
    fn every_code_is_read_whole(rt: HostRuntime) {
        for code in 1..=CODES {
            let event = sample(code);
            assert_eq!(rt; told(event), Ok(event.len()));
            assert_eq!(rt; code_read(event), Ok(code));
        }
    }

    #[test]
    fn no_code_is_read_from_a_part(rt: HostRuntime) {
        for code in 1..=CODES {
            let event = sample(code);
            for n in 1..event.len() {
                assert_eq!(rt; told(&event[..n]), Err(Refusal::InputTooShort));
            }
        }
        assert_eq!(rt; told(b""), Err(Refusal::UnknownCode));
    }

    #[test]
    fn bytes_that_follow_are_not_read(rt: HostRuntime) -> Result<(), Fail> {
        for code in 1..=CODES {
            let event = sample(code);
            let mut more = event.to_vec(rt.alloc())?;
            for follows in 0..40u8 {
                more.push(follows.wrapping_mul(67))?;
                assert_eq!(rt; told(&more), Ok(event.len()));
            }
        }
        Ok(())
    }

    #[test]
    fn no_other_code_is_known(rt: HostRuntime) {
        assert_eq!(rt; told(&[0; 80]), Err(Refusal::UnknownCode));
        for code in 15..=255u8 {
            let mut input = [0u8; 80];
            input[0] = code;
            assert_eq!(rt; told(&input), Err(Refusal::UnknownCode));
        }
    }
}
