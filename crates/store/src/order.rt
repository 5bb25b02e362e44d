//! Rows in key order by a key's plain number: looking for a row, putting one in, taking one out.
ghost use Rattle.std.specs.Prelude.{◌≡◌, ◌<◌, vec_len};
ghost use Rattle.store.specs.Model.{at, first_from, holds, without, PutSays};
ghost use Rattle.store.specs.Rows.{held, PlaceSays, StandsAt, put_slots, drop_slots};

use crate::row::Row;
use crate::rows::Rows;
use key::{Key, Refusal};

impl<K: Key, V: Copy> Rows<K, V> {
    /// The place of the key's row: `Ok` where it stands, and `Err` where it would go in.
    fn place(&self, key: u64) -> Result<usize, usize>
        ensures { PlaceSays (held self.now.rows.items self.now.len) key result }
    {
        self.rows[..self.len].binary_search_by_key(&key, |row| row.key)
    }

    /// The record at the key.
    pub(crate) fn find_row(&self, key: u64) -> Option<V>
        ensures { result ≡ at (held self.now.rows.items self.now.len) key }
    {
        let i = self.place(key).ok()?;
        Some(self.rows[i].value)
    }

    /// The least key that is at least `from`.
    pub(crate) fn first_row(&self, from: u64) -> Option<u64>
        ensures { result ≡ first_from (held self.now.rows.items self.now.len) from }
    {
        let (Ok(i) | Err(i)) = self.place(from);
        // `get(i).map(..)` over a part of the rows reads no plainer
        if i < self.len {
            Some(self.rows[i].key)
        } else {
            None
        }
    }

    /// Sets the record at the key, or refuses where the key is new and every slot is a row.
    pub(crate) fn put_row(&mut self, row: Row<V>) -> Result<(), Refusal>
        requires below { row.key < K.LIMIT }
        ensures room { vec_len self.new.rows ≡ vec_len self.old.rows }
        ensures entries { PutSays (vec_len self.old.rows) (held self.old.rows.items self.old.len) row.key row.value result (held self.new.rows.items self.new.len) }
        ensures slots { self.new.rows.items ≡ put_slots self.old.rows.items self.old.len row.key row.value }
    {
        match self.place(row.key) {
            Ok(i) => self.rows[i] = row,
            Err(_) if self.len == self.rows.len() => return Err(Refusal::StoreFull),
            Err(i) => {
                self.rows.copy_within(i..self.len, i + 1);
                self.rows[i] = row;
                self.len += 1;
            }
        }
        Ok(())
    }

    /// Where the row to be dropped stands, if it does.
    fn standing(&self, key: u64) -> Option<usize>
        ensures { StandsAt (held self.now.rows.items self.now.len) key result }
    {
        self.place(key).ok()
    }

    /// Drops the row at the key, and tells whether there was one.
    pub(crate) fn remove_row(&mut self, key: u64) -> bool
        ensures room { vec_len self.new.rows ≡ vec_len self.old.rows }
        ensures stood { result ≡ holds (held self.old.rows.items self.old.len) key }
        ensures entries { held self.new.rows.items self.new.len ≡ without (held self.old.rows.items self.old.len) key }
        ensures slots { self.new.rows.items ≡ drop_slots self.old.rows.items self.old.len key }
    {
        let Some(i) = self.standing(key) else {
            return false;
        };
        self.rows.copy_within(i + 1..self.len, i);
        self.len -= 1;
        true
    }
}
