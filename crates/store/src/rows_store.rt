//! Rows in key order as a record store.
ghost use Rattle.std.specs.Prelude.{◌≡◌, ℕ, ◌≤◌, [], take, vec_len};
ghost use Rattle.store.specs.Model.{holds, without, capped, PutSays};
ghost use Rattle.store.specs.Rows.{held, put_slots, drop_slots};
ghost use Rattle.store.specs.RowsLaws.{rows_lawful};

use crate::meaning::RecordStore;
use crate::room::MOST_ROOM;
use crate::row::Row;
use crate::rows::Rows;
use key::{Key, Refusal};
use std::marker::PhantomData;

impl<K: Key, V: Copy> Rows<K, V> {
    /// An empty store in the memory handed in, of which it uses at most 65,536 rows.
    pub fn over(mut rows: Vec<Row<V>>) -> Rows<K, V>
        ensures room { vec_len result.rows ≡ capped (vec_len rows) }
        ensures entries { held result.rows.items result.len ≡ [] }
        ensures slots { result.rows.items ≡ take 65536 rows.items }
    {
        rows.truncate(MOST_ROOM);
        Rows {
            rows,
            len: 0,
            of: PhantomData,
        }
    }
}

impl<K: Key, V: Copy> RecordStore<K, V> for Rows<K, V> {
    ghost entries = { λ s. held s.rows.items s.len };

    ghost room = { λ s. vec_len s.rows };

    fn count(&self) -> usize {
        self.len
    }

    fn room(&self) -> usize {
        self.rows.len()
    }

    fn find(&self, k: K) -> Option<V> {
        self.find_row(k.to_number())
    }

    fn next(&self, above: &Option<K>) -> Option<K> {
        let from = above.map_or(0, |k| k.to_number() + 1);
        K::from_number(self.first_row(from)?)
    }

    fn put(&mut self, k: K, v: V) -> Result<(), Refusal>
        ensures room { vec_len self.new.rows ≡ vec_len self.old.rows }
        ensures entries { PutSays (vec_len self.old.rows) (held self.old.rows.items self.old.len) (K.number k) v result (held self.new.rows.items self.new.len) }
        ensures slots { self.new.rows.items ≡ put_slots self.old.rows.items self.old.len (K.number k) v }
    {
        self.put_row(Row {
            key: k.to_number(),
            value: v,
        })
    }

    fn remove(&mut self, k: K) -> bool
        ensures room { vec_len self.new.rows ≡ vec_len self.old.rows }
        ensures stood { result ≡ holds (held self.old.rows.items self.old.len) (K.number k) }
        ensures entries { held self.new.rows.items self.new.len ≡ without (held self.old.rows.items self.old.len) (K.number k) }
        ensures slots { self.new.rows.items ≡ drop_slots self.old.rows.items self.old.len (K.number k) }
    {
        self.remove_row(k.to_number())
    }

    fn clear(&mut self)
        ensures room { vec_len self.new.rows ≡ vec_len self.old.rows }
        ensures entries { held self.new.rows.items self.new.len ≡ [] }
        ensures slots { self.new.rows.items ≡ self.old.rows.items }
    {
        self.len = 0;
    }

    ghost lawful = { rows_lawful };
}
