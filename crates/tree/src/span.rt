//! The keys that a subtree may hold. The type stands alone, since what it keeps is imported with it.
ghost use Rattle.std.specs.Prelude.{◌≡◌, ℕ, ◌+◌, ◌*◌, ◌/◌, ◌^◌, ◌<◌, ◌≤◌, if◌then◌else◌, nat_lt};
ghost use Rattle.tree.specs.declared.links.Side.TheVariants.{Left, Right};
ghost use Rattle.tree.specs.Writes.{low_on};

use crate::links::Side;
use crate::width::Width;

/// Twice `half` numbers from `low` on. In their lower half the next binary digit is 0, and those keys stand on the left.
#[derive(Clone, Copy)]
pub(crate) struct Span {
    pub(crate) low: u64,
    pub(crate) half: u64,
    ghost fits: { low + half * 2 ≤ 2 ^ 64 },
}

impl Span {
    /// The numbers of so many binary digits.
    pub(crate) fn of(width: Width) -> Span
        ensures low { result.low ≡ 0 }
        ensures half { result.half ≡ width.half }
    {
        Span {
            low: 0,
            half: width.half,
        }
    }

    /// The side on which `key` stands.
    pub(crate) fn side_of(self, key: u64) -> Side
        ensures { result ≡ (if nat_lt key (self.low + self.half) then Left else Right) }
    {
        if key < self.low + self.half {
            Side::Left
        } else {
            Side::Right
        }
    }

    /// The half on that side.
    pub(crate) fn on(self, side: Side) -> Span
        ensures low { result.low ≡ low_on side self.low self.half }
        ensures half { result.half ≡ self.half / 2 }
    {
        let low = match side {
            Side::Left => self.low,
            Side::Right => self.low + self.half,
        };
        Span {
            low,
            half: self.half / 2,
        }
    }
}
