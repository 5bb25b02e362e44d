//! The IMSI as a type. It stands alone, since the definitions that speak of it cannot be imported beside its invariant.
ghost use Rattle.std.specs.Prelude.{◌≡◌, ◌<◌, ◌≤◌, MatchOption};

/// Ten to the fifteenth: no IMSI's number reaches it.
pub const IMSI_LIMIT: u64 = 1_000_000_000_000_000;

/// The international mobile subscriber identity: fifteen digits, leading zeros counted.
#[derive(Clone, Copy, PartialEq, Eq, PartialOrd, Ord, Debug)]
pub struct Imsi {
    number: u64,
    ghost fifteen: { number < 1000000000000000 },
}

impl Imsi {
    /// The IMSI whose digits write the number, or none where that takes more than fifteen.
    pub fn new(number: u64) -> Option<Imsi>
        ensures { MatchOption result (1000000000000000 ≤ number) (λ imsi. imsi.number ≡ number) }
    {
        // no `then`: its closure does not know the test that the ghost field needs
        if number < IMSI_LIMIT {
            Some(Imsi { number })
        } else {
            None
        }
    }

    /// The number that the fifteen digits write.
    pub fn number(self) -> u64
        ensures is { result ≡ self.number }
        ensures fifteen { result < 1000000000000000 }
    {
        self.number
    }
}
