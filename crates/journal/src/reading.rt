//! Reading a journal's line.
ghost use Rattle.journal.specs.Words.{Reads, exchanges_word, store_word};

use crate::call::{Call, Exchanges, Spending, StoreKind, Visitor};
use crate::fault::Fault;
use crate::hex::read_bytes;
use std::alloc::Global;
use std::str::{FromStr, SplitWhitespace};

/// No store has more room; a journal is read without one.
const MOST_ROOM: usize = 65_536;

// Of one shape with the next: a conversion is written for its type, and no macro of our own may write it.
impl FromStr for Exchanges {
    type Err = Fault;

    ghost from_str_gives = { Reads exchanges_word };

    fn from_str(word: &str) -> Result<Exchanges, Fault> {
        match word {
            "one" => Ok(Exchanges::One),
            "several" => Ok(Exchanges::Several),
            _ => Err(Fault::Visitor),
        }
    }
}

impl FromStr for StoreKind {
    type Err = Fault;

    ghost from_str_gives = { Reads store_word };

    fn from_str(word: &str) -> Result<StoreKind, Fault> {
        match word {
            "rows" => Ok(StoreKind::Rows),
            "tree" => Ok(StoreKind::Tree),
            _ => Err(Fault::Visitor),
        }
    }
}

/// The next word, read; it is the line's fault where there is none or it cannot be read.
fn next<T: FromStr>(words: &mut SplitWhitespace<'_>, fault: Fault) -> Result<T, Fault>
where
    T::Err: Drop,
{
    words.next().ok_or(fault)?.parse::<T>().map_err(|_| fault)
}

/// It is the line's fault where more words follow.
fn end(mut words: SplitWhitespace<'_>, fault: Fault) -> Result<(), Fault> {
    words.next().map_or(Ok(()), |_| Err(fault))
}

fn read_visitor(mut words: SplitWhitespace<'_>) -> Result<Visitor, Fault> {
    let visitor = Visitor {
        exchanges: next(&mut words, Fault::Visitor)?,
        last: next(&mut words, Fault::Visitor)?,
        store: next(&mut words, Fault::Visitor)?,
        room: next(&mut words, Fault::Visitor)?,
    };
    end(words, Fault::Visitor)?;
    if visitor.room > MOST_ROOM {
        return Err(Fault::Visitor);
    }
    Ok(visitor)
}

/// The number of a dialogue, and nothing behind it.
fn read_dialogue(mut words: SplitWhitespace<'_>) -> Result<u32, Fault> {
    let dialogue = next(&mut words, Fault::Dialogue)?;
    end(words, Fault::Dialogue)?;
    Ok(dialogue)
}

/// The call that a line asks for; a blank line and one that begins with `#` ask for none.
pub fn read_line(heap: Global, line: &str) -> Result<Option<Call>, Fault> {
    if line.starts_with('#') {
        return Ok(None);
    }
    let mut words = line.split_whitespace();
    let Some(name) = words.next() else {
        return Ok(None);
    };
    let call = match name {
        "visitor" => Call::Visitor(read_visitor(words)?),
        "event" => Call::Event(read_bytes(heap, words)?),
        "direct" => Call::Direct(read_bytes(heap, words)?),
        "send" => Call::Spend(Spending::Send, read_dialogue(words)?),
        "withdraw" => Call::Spend(Spending::Withdraw, read_dialogue(words)?),
        "show" => {
            end(words, Fault::Nothing)?;
            Call::Show
        }
        _ => return Err(Fault::Call),
    };
    Ok(Some(call))
}
