//! What a key is, and the two kinds of key: IMSI and TMSI.
ghost use Rattle.std.specs.Prelude.{◌≡◌, ℕ, ◌^◌, ◌<◌, ◌≤◌};
ghost use Rattle.std.specs.Ordering.{nat_cmp};
ghost use Rattle.key.specs.Keys.{Made};

use crate::imsi::{IMSI_LIMIT, Imsi};
use crate::tmsi::{TMSI_LIMIT, Tmsi};
use std::cmp::Ordering;

/// A key has a fixed width in bytes and a plain number below its limit, which orders it.
pub trait Key: Copy {
    /// The bytes that a key takes in an event.
    const WIDTH: usize;

    /// What no key's number reaches.
    const LIMIT: u64;

    ghost WIDTH: { ℕ };

    ghost LIMIT: { ℕ };

    /// The key's plain number.
    ghost number: { Self → ℕ };

    fn to_number(self) -> u64
        ensures is { result ≡ number self }
        ensures below { result < LIMIT };

    /// The key of that number, made again after a check.
    fn from_number(n: u64) -> Option<Self>
        ensures { Made number LIMIT n result };

    /// Which of two keys comes first: the one with the smaller number.
    fn order(self, other: Self) -> Ordering
        ensures { result ≡ nat_cmp (number self) (number other) }
    {
        self.to_number().cmp(&other.to_number())
    }

    /// A key's bytes make a number of 64 bits.
    ghost narrow: { WIDTH ≤ 8 };

    /// There is a number of 64 bits above each key's.
    ghost bounded: { LIMIT < 2 ^ 64 };

    /// The order is total: keys of one number are one key.
    ghost same: { (a b : Self) → number a ≡ number b → a ≡ b };
}

impl Key for Imsi {
    ghost use Rattle.std.proofs.Common.{rules};
    ghost use Rattle.key.specs.Same.{same_imsi};

    const WIDTH: usize = 8;

    const LIMIT: u64 = IMSI_LIMIT;

    ghost WIDTH = { 8 };

    ghost LIMIT = { 1000000000000000 };

    ghost number = { λ k. k.number };

    fn to_number(self) -> u64 {
        self.number()
    }

    fn from_number(n: u64) -> Option<Imsi> {
        Imsi::new(n)
    }

    ghost narrow = { Prim.search rules };

    ghost bounded = { Prim.search rules };

    ghost same = { same_imsi };
}

impl Key for Tmsi {
    ghost use Rattle.std.proofs.Common.{rules};
    ghost use Rattle.key.specs.Same.{same_tmsi};

    const WIDTH: usize = 4;

    const LIMIT: u64 = TMSI_LIMIT;

    ghost WIDTH = { 4 };

    ghost LIMIT = { 4294967296 };

    ghost number = { λ k. k.number };

    fn to_number(self) -> u64 {
        u64::from(self.number)
    }

    fn from_number(n: u64) -> Option<Tmsi> {
        let number = u32::try_from(n).ok()?;
        Some(Tmsi { number })
    }

    ghost narrow = { Prim.search rules };

    ghost bounded = { Prim.search rules };

    ghost same = { same_tmsi };
}
