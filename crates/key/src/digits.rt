//! The digits of an IMSI, and whether they begin with given ones.
ghost use Rattle.std.specs.Prelude.{◌≡◌, ◌-◌, ◌/◌, ◌^◌, if◌then◌else◌, Some, None};
ghost use Rattle.key.specs.Figures.{begins, is_hlr_id};
ghost use Rattle.key.specs.Reads.{by_digits, ImsiOf};

use crate::hlr_id::HlrId;
use crate::imsi::Imsi;
use crate::refusal::Refusal;
use std::fmt;

/// An IMSI has so many digits, leading zeros counted.
const IMSI_DIGITS: u8 = 15;

/// An HLR-Id has at least so many.
const FEWEST_DIGITS: u8 = 5;

impl HlrId {
    /// The HLR-Id of that many digits and that value, or none where either is outside its range.
    pub fn new(digits: u8, value: u64) -> Option<HlrId>
        ensures { by_digits result ≡ (if is_hlr_id digits value then Some (digits, value) else None) }
    {
        if !(FEWEST_DIGITS..=IMSI_DIGITS).contains(&digits) {
            return None;
        }
        // no `then`: its closure does not know the test that the ghost field needs
        if value < 10u64.pow(u32::from(digits)) {
            Some(HlrId { digits, value })
        } else {
            None
        }
    }
}

impl Imsi {
    /// The number that as many leading digits as the HLR-Id has write.
    fn leading(self, id: HlrId) -> u64
        ensures { result ≡ self.number / 10 ^ (15 - id.digits) }
    {
        let others = u32::from(IMSI_DIGITS - id.digits);
        self.number() / 10u64.pow(others)
    }

    /// Whether the leading digits are those of the HLR-Id.
    pub fn begins_with(self, id: HlrId) -> bool
        ensures { result ≡ begins self.number id.digits id.value }
    {
        self.leading(id) == id.value
    }
}

/// The IMSI of a number that came from outside.
impl TryFrom<u64> for Imsi {
    type Error = Refusal;

    ghost try_from_gives = { ImsiOf };

    fn try_from(number: u64) -> Result<Imsi, Refusal> {
        Imsi::new(number).ok_or(Refusal::OutOfRange)
    }
}

impl fmt::Display for Imsi {
    fn fmt<W: fmt::Write>(&self, f: &mut fmt::Formatter<W>) -> fmt::Result {
        let number = self.number();
        write!(f, "{number:015}")
    }
}
