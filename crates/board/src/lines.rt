//! The journal, line by line.
use anyhow::anyhow;
use journal::{Call, read_line};
use std::fmt::Display;
use std::io;
use std::io::{BufRead, BufReader, Lines, Stdin};

/// A line of the journal: what is printed for it begins with its number.
#[derive(Clone, Copy)]
pub struct Line {
    pub rt: HostRuntime,
    number: u64,
}

impl Line {
    /// Prints what was done, for the macro of this name.
    pub fn println<D: Display + Drop>(&self, done: D) -> io::Result<()> {
        let number = self.number;
        println!(self.rt; "{number} {done}")
    }

    /// The message that ends the program at this line.
    pub fn fault<D: Display + Drop>(&self, fault: D) -> anyhow::Error {
        let number = self.number;
        anyhow!("line {number}: {fault}")
    }

    /// The call that the text asks for, if it asks for one.
    fn read(&self, text: io::Result<String>) -> anyhow::Result<Option<Call>> {
        let text = text.map_err(|_| self.fault("expected text"))?;
        read_line(self.rt.alloc(), text.as_str()).map_err(|fault| self.fault(fault))
    }
}

/// The lines that ask for a call, one after the other.
#[derive(Drop)]
pub struct Journal {
    texts: Lines<BufReader<Stdin>>,
    /// The line that was read last.
    line: Line,
}

impl Journal {
    /// The journal on standard input.
    pub fn read(rt: HostRuntime) -> io::Result<Journal> {
        let texts = BufReader::new(rt.alloc(), rt.stdin())?.lines(rt.alloc());
        let line = Line { rt, number: 0 };
        Ok(Journal { texts, line })
    }
}

impl Iterator for Journal {
    ghost use Rattle.std.specs.Iterator.{at_most};
    ghost use Rattle.board.specs.Reading.{left};

    type Item = anyhow::Result<(Line, Call)>;

    ghost remaining = { λ journal. at_most (left journal) };

    fn next(&mut self) -> Option<anyhow::Result<(Line, Call)>> {
        self.texts.find_map(|text| {
            self.line.number = self.line.number.saturating_add(1);
            let line = self.line;
            let call = line.read(text).transpose()?;
            Some(call.map(|call| (line, call)))
        })
    }
}
