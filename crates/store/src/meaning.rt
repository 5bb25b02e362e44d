//! What a record store means: a map from keys to records, and a fixed room.
ghost use Rattle.std.specs.Prelude.{◌≡◌, ℕ, List, [], length};
ghost use Rattle.store.specs.Model.{at, holds, without, first_from, numbered, start, Lawful, PutSays};

use key::{Key, Refusal};

/// A map from keys to records, with room for a fixed number of keys, at most 65,536.
pub trait RecordStore<K: Key, V: Copy> {
    /// The map: each key's number with its record, the numbers rising.
    ghost entries: { Self → List (ℕ × V) };

    /// How many keys the store has room for.
    ghost room: { Self → ℕ };

    /// How many keys there are.
    fn count(&self) -> usize
        ensures { result ≡ length (entries self.now) };

    /// How many keys there is room for.
    fn room(&self) -> usize
        ensures { result ≡ room self.now };

    /// The record at the key, if there is one.
    fn find(&self, k: K) -> Option<V>
        ensures { result ≡ at (entries self.now) (K.number k) };

    /// The smallest key, or the smallest above a given one, which need not be in the map.
    // A reference, since the kit gives an impl no clauses of its trait where an option of a key is passed by value.
    fn next(&self, above: &Option<K>) -> Option<K>
        ensures { numbered K.number result ≡ first_from (entries self.now) (start (numbered K.number above.now)) };

    /// Sets the record at the key, or refuses where the key is new and the store is full.
    fn put(&mut self, k: K, v: V) -> Result<(), Refusal>
        ensures room { room self.new ≡ room self.old }
        ensures entries { PutSays (room self.old) (entries self.old) (K.number k) v result (entries self.new) };

    /// Drops the key, and tells whether it stood there.
    fn remove(&mut self, k: K) -> bool
        ensures room { room self.new ≡ room self.old }
        ensures stood { result ≡ holds (entries self.old) (K.number k) }
        ensures entries { entries self.new ≡ without (entries self.old) (K.number k) };

    /// Empties the map.
    fn clear(&mut self)
        ensures room { room self.new ≡ room self.old }
        ensures entries { entries self.new ≡ [] };

    /// What holds of every store, for generic code to use.
    ghost lawful: { (s : Self) → Lawful K.LIMIT (room s) (entries s) };
}
