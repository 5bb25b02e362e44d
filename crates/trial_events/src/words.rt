//! Events and answers as they are printed.
#[cfg(test)]
mod tests {
    use crate::samples::*;
    use event::{Answer, Handling, Ignored, Kind, Opened, Reply, Subject, decode};
    use std::test::Fail;

    // The sample of each code in words.
    const WORDS: [&str; 14] = [
        "Provide Roaming Number for 001010000000001",
        "Call Information for 001010000000001",
        "Short Message Information, version 2, for 001010000000001",
        "Short Message Information, version 1, for 001010000000001",
        "Location Request for 001010000000001",
        "Access of 001010000000001, authenticated, MSC 7, area 16",
        "Outgoing of 001010000000001, authenticated, MSC 7",
        "Registration of 001010000000001, authentication failed, MSC 7, area 17",
        "Open Update for 001010000000001",
        "Insert of 2 groups in dialogue 1",
        "End of dialogue 1, well",
        "Reset of 5 digits, value 101",
        "Cancel for 001010000000001",
        "Restart",
    ];

    #[test]
    fn an_event_says_its_operands(rt: HostRuntime) -> Result<(), Fail> {
        for (code, words) in (1..=CODES).zip(WORDS) {
            let decoded = decode(sample(code))?;
            let event = decoded.event;
            let printed = format!(in rt.alloc(); "{event}")?;
            assert_eq!(rt; printed.as_str(), words);
        }
        Ok(())
    }

    #[test]
    fn one_group_is_a_group_and_a_bad_end_is_not_well(rt: HostRuntime) -> Result<(), Fail> {
        let one = decode(b"\x0a\0\0\0\x08\x01\x41\0\0\0\0\0\0\0\0\0\0")?.event;
        let printed = format!(in rt.alloc(); "{one}")?;
        assert_eq!(rt; printed.as_str(), "Insert of 1 group in dialogue 8");
        let bad = decode(b"\x0b\0\0\0\x08\x01")?.event;
        let printed = format!(in rt.alloc(); "{bad}")?;
        assert_eq!(rt; printed.as_str(), "End of dialogue 8, not well");
        Ok(())
    }

    // An answer that opened nothing.
    fn answered(reply: Reply, handling: Handling, supplementary: bool, regional: bool) -> Answer {
        Answer {
            reply,
            handling,
            opened: None,
            ignored: Ignored {
                supplementary,
                regional,
            },
            subject: Subject::Nobody,
        }
    }

    #[test]
    fn an_answer_says_what_is_to_be_done(rt: HostRuntime) -> Result<(), Fail> {
        let page = answered(Reply::Done, Handling::Page, false, true);
        let printed = format!(in rt.alloc(); "{page}")?;
        assert_eq!(rt; printed.as_str(), "done, page, group F passed over");
        let search = answered(Reply::DataMissing, Handling::Search, true, false);
        let printed = format!(in rt.alloc(); "{search}")?;
        assert_eq!(rt;
            printed.as_str(),
            "data missing, search, group C passed over"
        );
        let unknown = answered(
            Reply::UnidentifiedSubscriber,
            Handling::Nothing,
            false,
            false,
        );
        let printed = format!(in rt.alloc(); "{unknown}")?;
        assert_eq!(rt; printed.as_str(), "unidentified subscriber");
        Ok(())
    }

    #[test]
    fn an_answer_says_which_dialogue_it_opened(rt: HostRuntime) -> Result<(), Fail> {
        for (kind, opened, listed) in [
            (
                Kind::RestoreData,
                "Restore Data opened as dialogue 7",
                "restore",
            ),
            (
                Kind::UpdateLocation,
                "Update Location opened as dialogue 7",
                "update",
            ),
            (
                Kind::StandAlone,
                "stand-alone update opened as dialogue 7",
                "stand-alone",
            ),
        ] {
            let dialogue = Opened { kind, dialogue: 7 };
            let answer = Answer {
                opened: Some(dialogue),
                ..answered(
                    Reply::UnexpectedDataValue,
                    Handling::RoamingNumber,
                    true,
                    true,
                )
            };
            let printed = format!(in rt.alloc(); "{answer}")?;
            let expected = format!(in rt.alloc();
                "unexpected data value, roaming number given, groups C and F passed over, {opened}"
            )?;
            assert_eq!(rt; printed.as_str(), expected.as_str());
            let printed = format!(in rt.alloc(); "{kind}")?;
            assert_eq!(rt; printed.as_str(), listed);
        }
        Ok(())
    }
}
