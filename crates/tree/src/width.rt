//! How many binary digits a key has. The type stands alone, since the definitions that speak of it cannot be imported
//! beside its invariant.
ghost use Rattle.std.specs.Prelude.{◌≡◌, ℕ, ◌*◌, ◌^◌, ◌<◌, ◌≤◌};
ghost use Rattle.tree.specs.Digits.{Digits};

/// A number of binary digits, and the value of the highest of them.
#[derive(Clone, Copy)]
pub(crate) struct Width {
    pub(crate) bits: u8,
    pub(crate) half: u64,
    ghost halved: { half * 2 ≡ 2 ^ bits },
    ghost some: { 1 ≤ bits },
    ghost most: { bits ≤ 64 },
}

impl Width {
    /// The digits that the numbers below `limit` take.
    pub(crate) fn of(limit: u64) -> Width
        ensures { Digits limit result.bits }
    {
        let highest = limit.saturating_sub(1).max(1).ilog2();
        Width {
            bits: highest as u8 + 1,
            half: 1 << highest,
        }
    }
}
