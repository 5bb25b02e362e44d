//! Rows in key order as a type. It stands alone, since the definitions that speak of it cannot be imported beside its invariant.
ghost use Rattle.std.specs.Prelude.{◌≡◌, ℕ, ◌≤◌, true, vec_len};
ghost use Rattle.store.specs.Model.{keys, rises, all_below};
ghost use Rattle.store.specs.Rows.{held};

use crate::row::Row;
use key::Key;
use std::marker::PhantomData;

/// A store whose first `len` rows hold the records in key order, in memory that was handed in and never grows.
#[derive(Drop)]
pub struct Rows<K: Key, V> {
    pub(crate) rows: Vec<Row<V>>,
    // a count beside the rows: the memory handed in keeps its length, since a store never allocates
    pub(crate) len: usize,
    pub(crate) of: PhantomData<K>,
    ghost small: { vec_len rows ≤ 65536 },
    ghost within: { len ≤ vec_len rows },
    ghost rising: { rises (keys (held rows.items len)) ≡ true },
    ghost valid: { all_below K.LIMIT (keys (held rows.items len)) ≡ true },
}
