//! The start of a visitor register, where its store is chosen.
ghost use Rattle.board.specs.Reading.{ReadOn};

use crate::lines::{Journal, Line};
use crate::site::Site;
use journal::{Exchanges, StoreKind, Visitor};
use key::Imsi;
use restoration::{Indicator, Record};
use store::{RecordStore, Row, Rows};
use tree::{Node, SearchTree};
use visitor::Vlr;

/// A line that starts a register.
#[derive(Clone, Copy)]
pub struct Start {
    pub line: Line,
    pub visitor: Visitor,
}

impl Start {
    /// Plays the journal with a register over the store that is asked for, until another one is started.
    pub fn play(self, journal: &mut Journal) -> anyhow::Result<Option<Start>>
        ensures { ReadOn journal.old result journal.new }
    {
        let heap = self.line.rt.alloc();
        let blank = Record::made(Indicator::NotConfirmed);
        let room = self.visitor.room;
        match self.visitor.store {
            StoreKind::Rows => {
                let rows = vec![in heap; Row::spare(blank); room]?;
                self.play_over(journal, Rows::over(rows))
            }
            StoreKind::Tree => {
                let nodes = vec![in heap; Node::spare(blank); room]?;
                self.play_over(journal, SearchTree::over(nodes))
            }
        }
    }

    /// Plays the journal with a register over a new store, and spends at the end what was kept and never spent.
    fn play_over<S: RecordStore<Imsi, Record> + Drop>(
        self,
        journal: &mut Journal,
        store: S,
    ) -> anyhow::Result<Option<Start>>
        ensures { ReadOn journal.old result journal.new }
    {
        let Start { line, visitor } = self;
        let several = visitor.exchanges == Exchanges::Several;
        let register = Vlr::start(store, several, visitor.last);
        println!(line; "started a visitor register")?;
        let mut site = Site::new(line.rt.alloc(), register);
        let played = site.play(journal);
        let closed = site.close(line.rt);
        let next = played?;
        closed?;
        Ok(next)
    }
}
