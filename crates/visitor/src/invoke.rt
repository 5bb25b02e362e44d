//! The invoke of a dialogue: the right, and the duty, to send it or to withdraw it.
ghost use Rattle.std.specs.Prelude.{◌≡◌, true, false};
ghost use Rattle.std.specs.Option.{option_map};
ghost use Rattle.visitor.specs.Invokes.{fresh, hand};
ghost use Rattle.restoration.specs.Steps.{invoke_of};

use event::{Answer, Kind, Opened};

/// It cannot be let go before it is spent, and it can be spent only once. The flag is there since the project fixed that the
/// drop demands it.
pub struct Invoke {
    dialogue: u32,
    spent: bool,
}

impl Drop for Invoke {
    fn drop(self)
        requires { self.spent ≡ true }
    {
        let Invoke {
            dialogue: _,
            spent: _,
        } = self;
    }
}

/// An answer, with the invoke of the dialogue that was opened.
pub struct Handed {
    pub answer: Answer,
    pub invoke: Option<Invoke>,
}

impl Invoke {
    /// The invoke of a dialogue that opened. A stand-alone update needs none.
    fn of(opened: Opened) -> Option<Invoke>
        ensures { result ≡ option_map fresh (invoke_of opened.kind opened.dialogue) }
    {
        match opened.kind {
            Kind::RestoreData | Kind::UpdateLocation => Some(Invoke {
                dialogue: opened.dialogue,
                spent: false,
            }),
            Kind::StandAlone => None,
        }
    }

    /// The number of its dialogue.
    pub fn dialogue(&self) -> u32
        ensures { result ≡ self.now.dialogue }
    {
        self.dialogue
    }

    /// Spends it, and tells the number of its dialogue.
    pub(crate) fn spend(mut self) -> u32
        ensures { result ≡ self.dialogue }
    {
        self.spent = true;
        self.dialogue
    }
}

impl Handed {
    /// The answer with what it hands out. It is no `From`: an invoke that anybody could make would grant nothing.
    pub(crate) fn of(answer: Answer) -> Handed
        ensures { result ≡ hand answer }
    {
        let invoke = answer.opened.and_then(Invoke::of);
        Handed { answer, invoke }
    }
}
