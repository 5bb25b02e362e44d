//! Both ends of every operand's range.
// Where a loop goes over numbers, the number is the case that is tried.
#[cfg(test)]
mod tests {
    use crate::samples::*;
    use key::Refusal;
    use std::alloc::AllocError;
    use std::test::Fail;

    // The bytes of an event with one byte changed.
    fn changed(rt: &HostRuntime, code: u8, at: usize, byte: u8) -> Result<Vec<u8>, AllocError> {
        let mut event = sample(code).to_vec(rt.alloc())?;
        if let Some(place) = event.get_mut(at) {
            *place = byte;
        }
        Ok(event)
    }

    // The bytes of an event whose IMSI is that number.
    fn of_imsi(rt: &HostRuntime, code: u8, imsi: u64) -> Result<Vec<u8>, AllocError> {
        let mut event = sample(code).to_vec(rt.alloc())?;
        if event.len() >= 9 {
            event[1..9].copy_from_slice(&imsi.to_be_bytes());
        }
        Ok(event)
    }

    #[test]
    fn an_imsi_has_fifteen_digits(rt: HostRuntime) -> Result<(), Fail> {
        for code in [1, 2, 3, 4, 5, 6, 7, 8, 9, 13] {
            let length = sample(code).len();
            assert_eq!(rt; told(&of_imsi(&rt, code, 0)?), Ok(length));
            assert_eq!(rt; told(&of_imsi(&rt, code, 999_999_999_999_999)?), Ok(length));
            assert_eq!(rt;
                told(&of_imsi(&rt, code, 1_000_000_000_000_000)?),
                Err(Refusal::OutOfRange)
            );
            assert_eq!(rt;
                told(&of_imsi(&rt, code, u64::MAX)?),
                Err(Refusal::OutOfRange)
            );
        }
        Ok(())
    }

    #[test]
    fn authentication_is_zero_or_one(rt: HostRuntime) -> Result<(), Fail> {
        for code in [6, 7, 8] {
            let length = sample(code).len();
            assert_eq!(rt; told(&changed(&rt, code, 9, 0)?), Ok(length));
            assert_eq!(rt; told(&changed(&rt, code, 9, 1)?), Ok(length));
            assert_eq!(rt; told(&changed(&rt, code, 9, 2)?), Err(Refusal::OutOfRange));
            assert_eq!(rt;
                told(&changed(&rt, code, 9, 255)?),
                Err(Refusal::OutOfRange)
            );
        }
        Ok(())
    }

    #[test]
    fn exchange_and_area_take_any_byte(rt: HostRuntime) -> Result<(), Fail> {
        for code in [6, 8] {
            for at in 10..13 {
                assert_eq!(rt; told(&changed(&rt, code, at, 0)?), Ok(13));
                assert_eq!(rt; told(&changed(&rt, code, at, 255)?), Ok(13));
            }
        }
        assert_eq!(rt; told(&changed(&rt, 7, 10, 255)?), Ok(11));
        Ok(())
    }

    #[test]
    fn outcome_is_zero_or_one(rt: HostRuntime) -> Result<(), Fail> {
        assert_eq!(rt; told(&changed(&rt, 11, 5, 0)?), Ok(6));
        assert_eq!(rt; told(&changed(&rt, 11, 5, 1)?), Ok(6));
        assert_eq!(rt; told(&changed(&rt, 11, 5, 2)?), Err(Refusal::OutOfRange));
        assert_eq!(rt; told(b"\x0b\xff\xff\xff\xff\x01"), Ok(6));
        Ok(())
    }

    // An Insert of that count, its input cut at so many bytes.
    fn told_insert(count: u8, cut: usize) -> Result<usize, Refusal> {
        let mut input = [0u8; 84];
        input[0] = 10;
        input[5] = count;
        told(&input[..cut.min(84)])
    }

    #[test]
    fn a_message_has_one_to_six_groups(rt: HostRuntime) {
        assert_eq!(rt; told_insert(0, 84), Err(Refusal::OutOfRange));
        assert_eq!(rt; told_insert(7, 84), Err(Refusal::OutOfRange));
        for count in 1..=6u8 {
            let length = 6 + 11 * usize::from(count);
            assert_eq!(rt; told_insert(count, 84), Ok(length));
            assert_eq!(rt; told_insert(count, length), Ok(length));
            assert_eq!(rt; told_insert(count, length - 1), Err(Refusal::InputTooShort));
        }
    }

    #[test]
    fn a_count_is_judged_before_its_groups(rt: HostRuntime) {
        assert_eq!(rt; told(b"\x0a\x00\x00\x00\x01\x00"), Err(Refusal::OutOfRange));
        assert_eq!(rt; told(b"\x0a\x00\x00\x00\x01\x07"), Err(Refusal::OutOfRange));
        assert_eq!(rt; told(b"\x0a\x00\x00\x00\x01\xff"), Err(Refusal::OutOfRange));
        assert_eq!(rt;
            told(b"\x0a\x00\x00\x00\x01\x06"),
            Err(Refusal::InputTooShort)
        );
        assert_eq!(rt; told(b"\x0a\x00\x00\x00\x01"), Err(Refusal::InputTooShort));
    }

    // A Reset of so many digits and that value.
    fn told_reset(digits: u8, value: u64) -> Result<usize, Refusal> {
        let mut input = [0u8; 10];
        input[0] = 12;
        input[1] = digits;
        input[2..].copy_from_slice(&value.to_be_bytes());
        told(&input)
    }

    #[test]
    fn a_reset_has_five_to_fifteen_digits(rt: HostRuntime) {
        assert_eq!(rt; told_reset(4, 0), Err(Refusal::OutOfRange));
        assert_eq!(rt; told_reset(16, 0), Err(Refusal::OutOfRange));
        assert_eq!(rt; told_reset(255, 0), Err(Refusal::OutOfRange));
        for digits in 5..=15u8 {
            let ten_to_the_digits = 10u64.pow(u32::from(digits));
            assert_eq!(rt; told_reset(digits, 0), Ok(10));
            assert_eq!(rt;
                told_reset(digits, ten_to_the_digits.saturating_sub(1)),
                Ok(10)
            );
            assert_eq!(rt;
                told_reset(digits, ten_to_the_digits),
                Err(Refusal::OutOfRange)
            );
        }
    }

    #[test]
    fn too_short_comes_before_out_of_range(rt: HostRuntime) -> Result<(), Fail> {
        for code in [1, 6, 7, 8, 9, 11, 12, 13] {
            let mut event = sample(code).to_vec(rt.alloc())?;
            for operand in event.iter_mut().skip(1) {
                *operand = 255;
            }
            assert_eq!(rt; told(&event), Err(Refusal::OutOfRange));
            let _ = event.pop();
            assert_eq!(rt; told(&event), Err(Refusal::InputTooShort));
        }
        Ok(())
    }
}
