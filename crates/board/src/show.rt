//! A register as it stands: its records in the order of IMSIs, then its open dialogues in the order of numbers.
use crate::lines::Line;
use crate::site::Site;
use crate::words::OrNone;
use dialogue::Dialogue;
use key::Imsi;
use restoration::{Place, Record};
use std::io;
use std::iter::successors;
use store::{MOST_ROOM, RecordStore};

/// No table has more dialogues.
const MOST_DIALOGUES: usize = 64;

impl<S: RecordStore<Imsi, Record>> Site<S> {
    fn show_records(&self, line: Line) -> io::Result<()> {
        let register = &self.register;
        let first = register.next_subscriber(None);
        let subscribers = successors(first, |last| register.next_subscriber(Some(*last)));
        for imsi in subscribers.take(MOST_ROOM) {
            if let Some(record) = register.record(imsi) {
                let Record {
                    radio,
                    data,
                    location,
                    place: Place { msc, area },
                    ..
                } = record;
                let msc = OrNone(msc);
                let area = OrNone(area);
                println!(line;
                    "record {imsi} radio {radio} data {data} location {location} msc {msc} area {area}"
                )?;
            }
        }
        Ok(())
    }

    fn show_dialogues(&self, line: Line) -> io::Result<()> {
        let register = &self.register;
        let first = register.next_dialogue(None);
        let numbers = successors(first, |last| register.next_dialogue(Some(*last)));
        for number in numbers.take(MOST_DIALOGUES) {
            if let Some(dialogue) = register.dialogue(number) {
                let Dialogue {
                    kind,
                    imsi,
                    stage,
                    ..
                } = dialogue;
                println!(line; "dialogue {number} {kind} {imsi:015} {stage}")?;
            }
        }
        Ok(())
    }

    /// Each walk reaches its end, since no store has more records and no table more dialogues than it takes.
    pub fn show(&self, line: Line) -> io::Result<()> {
        self.show_records(line)?;
        self.show_dialogues(line)
    }
}
