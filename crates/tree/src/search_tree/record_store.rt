//! The search tree as a record store.
ghost use Rattle.std.specs.Prelude.{◌≡◌, false, vec_len, IfErr};
ghost use Rattle.store.specs.Model.{holds, without, PutSays};
ghost use Rattle.tree.specs.State.{stored};
ghost use Rattle.tree.specs.Laws.{tree_lawful};

use crate::head::Head;
use crate::put::renew;
use crate::remove::take_out;
use crate::search_tree::SearchTree;
use key::{Key, Refusal};
use store::RecordStore;

impl<K: Key, V: Copy> RecordStore<K, V> for SearchTree<K, V> {
    ghost entries = { λ s. stored s.nodes.items s.head };

    ghost room = { λ s. vec_len s.nodes };

    fn count(&self) -> usize {
        self.head.count
    }

    fn room(&self) -> usize {
        self.nodes.len()
    }

    fn find(&self, k: K) -> Option<V> {
        let held = self.seek(k).ok()?;
        Some(self.nodes[held.at as usize].record)
    }

    fn next(&self, above: &Option<K>) -> Option<K> {
        // `map_or_else` with two closures reads no plainer
        let found = match *above {
            Some(k) => self.least_above(k),
            None => self.least(),
        };
        K::from_number(found?)
    }

    fn put(&mut self, k: K, v: V) -> Result<(), Refusal>
        ensures room { vec_len self.new.nodes ≡ vec_len self.old.nodes }
        ensures entries { PutSays (vec_len self.old.nodes) (stored self.old.nodes.items self.old.head) (K.number k) v result (stored self.new.nodes.items self.new.head) }
        ensures untouched { IfErr result (λ _. self.new ≡ self.old) }
    {
        match self.seek(k) {
            Ok(held) => {
                renew(&mut self.nodes, held.at, v);
                Ok(())
            }
            Err(under) => {
                let spare = self.reserve()?;
                self.put_new(spare, under, k, v);
                Ok(())
            }
        }
    }

    fn remove(&mut self, k: K) -> bool
        ensures room { vec_len self.new.nodes ≡ vec_len self.old.nodes }
        ensures stood { result ≡ holds (stored self.old.nodes.items self.old.head) (K.number k) }
        ensures entries { stored self.new.nodes.items self.new.head ≡ without (stored self.old.nodes.items self.old.head) (K.number k) }
        ensures untouched { result ≡ false → self.new ≡ self.old }
    {
        let Ok(held) = self.seek(k) else {
            return false;
        };
        let tip = self.bottom(held);
        take_out(&mut self.nodes, held.at, tip, self.head.free);
        self.head = self.head.shrunk(tip);
        true
    }

    fn clear(&mut self) {
        self.head = Head::empty(self.head.width);
    }

    ghost lawful = { tree_lawful };
}
