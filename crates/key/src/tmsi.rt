//! The TMSI as a type.

/// Two to the thirty-second: four bytes hold every TMSI.
pub const TMSI_LIMIT: u64 = 0x1_0000_0000;

/// The temporary mobile subscriber identity: any four bytes.
#[derive(Clone, Copy, PartialEq, Eq, PartialOrd, Ord, Debug)]
pub struct Tmsi {
    pub number: u32,
}
