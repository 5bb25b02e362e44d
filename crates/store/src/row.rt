//! One row of memory: a key's plain number beside its record.
ghost use Rattle.std.specs.Prelude.{◌≡◌};
ghost use Rattle.store.specs.Rows.{as_pair};

/// A slot for one record. The owner of the memory makes spare rows; only a store reads or writes them.
#[derive(Clone, Copy)]
pub struct Row<V> {
    // a number and no key: a spare row holds none
    pub(crate) key: u64,
    pub(crate) value: V,
}

impl<V: Copy> Row<V> {
    /// A row to hand in: its record is never answered, since a store starts empty.
    pub fn spare(value: V) -> Row<V>
        ensures { as_pair result ≡ (0, value) }
    {
        Row { key: 0, value }
    }
}
