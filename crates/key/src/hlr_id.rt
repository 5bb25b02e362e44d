//! The HLR-Id as a type: the digits with which the IMSIs of one home register begin.
ghost use Rattle.std.specs.Prelude.{◌^◌, ◌<◌, ◌≤◌};

/// Five to fifteen leading digits, and the number that they write.
#[derive(Clone, Copy, PartialEq, Eq, Debug)]
pub struct HlrId {
    pub(crate) digits: u8,
    pub(crate) value: u64,
    ghost least: { 5 ≤ digits },
    ghost most: { digits ≤ 15 },
    ghost within: { value < 10 ^ digits },
}
