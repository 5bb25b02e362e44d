//! The numbers of refusals, as callers are given them.
#[cfg(test)]
mod tests {
    use key::Refusal;
    use std::test::Fail;

    #[test]
    fn a_refusal_has_its_number(rt: HostRuntime) -> Result<(), Fail> {
        for (refusal, number) in [
            (Refusal::AreaTooShort, 1),
            (Refusal::UnknownCode, 2),
            (Refusal::InputTooShort, 3),
            (Refusal::OutOfRange, 4),
            (Refusal::StoreFull, 5),
            (Refusal::TooManyDialogues, 6),
            (Refusal::NumbersUsedUp, 7),
            (Refusal::DialogueNotOpen, 8),
            (Refusal::AlreadyAdmitted, 9),
            (Refusal::BackUpTooSmall, 10),
        ] {
            assert_eq!(rt; u8::from(refusal), number);
        }
        Ok(())
    }
}
