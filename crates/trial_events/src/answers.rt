//! Answers written to areas of every length about sixteen.
// Where a loop goes over numbers, the number is the case that is tried.
#[cfg(test)]
mod tests {
    use event::{Answer, Handling, Ignored, Kind, Opened, Reply, Subject};

    // A call for a subscriber that is not known, 001010000000001.
    fn unknown() -> Answer {
        Answer {
            reply: Reply::SystemFailure,
            handling: Handling::Nothing,
            opened: None,
            ignored: Ignored::NONE,
            subject: Subject::Subscriber(1_010_000_000_001),
        }
    }

    // The highest number in every field.
    fn highest() -> Answer {
        Answer {
            reply: Reply::UnexpectedDataValue,
            handling: Handling::RoamingNumber,
            opened: Some(Opened {
                kind: Kind::StandAlone,
                dialogue: u32::MAX,
            }),
            ignored: Ignored {
                supplementary: true,
                regional: true,
            },
            subject: Subject::Records(u64::MAX),
        }
    }

    #[test]
    fn an_answer_has_sixteen_bytes(rt: HostRuntime) {
        assert!(rt; unknown().bytes() == *b"\x22\0\0\0\0\0\0\0\0\0\0\xeb\x28\xb0\xf4\x01");
        assert!(rt;
            highest().bytes()
                == *b"\x24\x03\x03\x24\xff\xff\xff\xff\xff\xff\xff\xff\xff\xff\xff\xff"
        );
    }

    #[test]
    fn a_short_area_is_refused_and_a_long_one_keeps_what_lies_beyond(rt: HostRuntime) {
        for length in 0..20usize {
            let mut area = [7u8; 20];
            let written = highest().write(&mut area[..length]).is_ok();
            assert_eq!(rt; written, length >= 16);
            assert_eq!(rt; area[0], if written { 0x24 } else { 7 });
            assert_eq!(rt; area[15], if written { 0xff } else { 7 });
            assert_eq!(rt; area[16], 7);
            assert_eq!(rt; area[19], 7);
        }
    }
}
