//! A site as its journal is played: its visitor register, and the invokes that were handed out and not spent yet.
ghost use Rattle.std.specs.Prelude.{◌≡◌, vec_len};
ghost use Rattle.board.specs.Reading.{ReadOn};

use crate::lines::{Journal, Line};
use crate::start::Start;
use crate::words::Answered;
use event::{ANSWER_LENGTH, decode};
use journal::{Call, Spending};
use key::{Imsi, Refusal};
use restoration::Record;
use std::alloc::{AllocFailed, Global};
use std::io;
use store::RecordStore;
use visitor::{Handed, Invoke, Vlr};

/// The invokes stand beside the register that handed them out, and end with it.
pub struct Site<S: RecordStore<Imsi, Record>> {
    pub register: Vlr<S>,
    kept: Vec<Invoke>,
}

/// Prints what an event was answered, or why it was refused.
fn say(line: Line, answered: Result<Answered<'_>, Refusal>) -> io::Result<()> {
    match answered {
        Ok(answered) => println!(line; "answer {answered}"),
        Err(refusal) => {
            let number = u8::from(refusal);
            println!(line; "refused {number} {refusal}")
        }
    }
}

impl<S: RecordStore<Imsi, Record> + Drop> Site<S> {
    /// A site with a new register.
    pub fn new(heap: Global, register: Vlr<S>) -> Site<S> {
        Site {
            register,
            kept: Vec::new(heap),
        }
    }

    /// Plays the journal until it ends, or starts another register.
    pub fn play(&mut self, journal: &mut Journal) -> anyhow::Result<Option<Start>>
        ensures { ReadOn journal.old result journal.new }
    {
        journal
            .find_map(|called| called
                .and_then(|(line, call)| self.make(line, call))
                .transpose())
            .transpose()
    }

    /// Makes a call, or tells that it starts another register.
    fn make(&mut self, line: Line, call: Call) -> anyhow::Result<Option<Start>> {
        match call {
            Call::Visitor(visitor) => return Ok(Some(Start { line, visitor })),
            Call::Event(input) => say(line, self.receive(&input))?,
            Call::Direct(input) => say(line, self.direct(&input))?,
            Call::Spend(spending, dialogue) => self.spend(line, spending, dialogue)?,
            Call::Show => self.show(line)?,
        }
        Ok(None)
    }

    /// Plays an event in bytes, with an answer area of its own.
    fn receive<'a>(&mut self, input: &'a [u8]) -> Result<Answered<'a>, Refusal> {
        let mut bytes = [0; ANSWER_LENGTH];
        let answer = self.register.receive(input, &mut bytes)?.answer;
        let event = decode(input)?.event;
        Ok(Answered {
            event,
            answer,
            bytes,
        })
    }

    /// Plays an event in the direct form, and keeps the invoke that it hands out.
    fn direct<'a>(&mut self, input: &'a [u8]) -> Result<Answered<'a>, Refusal> {
        let event = decode(input)?.event;
        let Handed { answer, invoke } = self.register.direct(event)?;
        if let Some(invoke) = invoke {
            self.keep(invoke);
        }
        let bytes = answer.bytes();
        Ok(Answered {
            event,
            answer,
            bytes,
        })
    }

    /// Keeps an invoke; where there is no memory for it, it is withdrawn at once.
    fn keep(&mut self, invoke: Invoke) {
        if let Err(AllocFailed { value }) = self.kept.push(invoke) {
            let _ = self.register.withdraw(value);
        }
    }

    /// Takes the kept invoke of a dialogue, if there is one.
    fn take_kept(&mut self, dialogue: u32) -> Option<Invoke> {
        let of_dialogue = |invoke: &Invoke| invoke.dialogue() == dialogue;
        let place = self.kept.iter().position(of_dialogue)?;
        Some(self.kept.remove(place))
    }

    /// Sends or withdraws the kept invoke of a dialogue.
    fn spend(&mut self, line: Line, spending: Spending, dialogue: u32) -> io::Result<()> {
        let Some(invoke) = self.take_kept(dialogue) else {
            return println!(line; "spent 0 no invoke of dialogue {dialogue} is kept");
        };
        let (spent, done) = match spending {
            Spending::Send => (self.register.send(invoke), "sent"),
            Spending::Withdraw => (self.register.withdraw(invoke), "withdrawn"),
        };
        let spent = u8::from(spent);
        println!(line; "spent {spent} invoke of dialogue {dialogue} {done}")
    }

    /// Withdraws every invoke that is still kept, the last one first, and says so.
    fn withdraw_kept(&mut self, rt: HostRuntime) -> io::Result<()>
        ensures { vec_len self.new.kept ≡ 0 }
    {
        let mut printed = Ok(());
        // popped one by one, since an iterator that owns invokes could let one go unspent
        while let Some(invoke) = self.kept.pop() {
            let dialogue = invoke.dialogue();
            let spent = u8::from(self.register.withdraw(invoke));
            printed = printed.and_then(|()| println!(rt;
                "end spent {spent} invoke of dialogue {dialogue} was never spent: withdrawn"
            ));
        }
        printed
    }

    /// Ends the site: what its journal never spent is withdrawn.
    pub fn close(mut self, rt: HostRuntime) -> io::Result<()> {
        let closed = self.withdraw_kept(rt);
        let Site { register: _, kept } = self;
        kept.destroy_empty();
        closed
    }
}
