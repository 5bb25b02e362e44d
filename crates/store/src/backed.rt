//! A store with a back-up, made of any two stores and itself a store: its map is the live one's.
ghost use Rattle.std.specs.Prelude.{◌≡◌, ◌<◌, ◌≤◌, [], length};
ghost use Rattle.store.specs.Model.{copy_answer, copied, holds, without, PutSays};

use crate::meaning::RecordStore;
use key::{Key, Refusal};
use std::marker::PhantomData;

/// Makes `to` hold what `from` holds, or refuses before it touches anything where that is more than `to` has room for.
fn copy<K: Key, V: Copy, A: RecordStore<K, V>, B: RecordStore<K, V>>(
    from: &A,
    to: &mut B,
) -> Result<(), Refusal>
    ensures answer { result ≡ copy_answer (B.room to.old) (A.entries from.now) }
    ensures room { B.room to.new ≡ B.room to.old }
    ensures entries { B.entries to.new ≡ copied (B.room to.old) (A.entries from.now) (B.entries to.old) }
    ensures untouched { B.room to.old < length (A.entries from.now) → to.new ≡ to.old }
{
    if to.room() < from.count() {
        return Err(Refusal::BackUpTooSmall);
    }
    to.clear();
    let mut last: Option<K> = None;
    // from key to key: no iterator promises which keys a store answers
    while let Some(k) = from.next(&last) {
        let v = from.find(k).unwrap();
        to.put(k, v).unwrap();
        last = Some(k);
    }
    Ok(())
}

/// Two stores: the live one, which is worked with, and its back-up, which only `save` writes.
#[derive(Drop)]
pub struct Backed<K: Key, V: Copy, L: RecordStore<K, V>, B: RecordStore<K, V>> {
    pub(crate) live: L,
    pub(crate) back: B,
    pub(crate) of: PhantomData<(K, V)>,
    /// So a reload always reloads.
    ghost fits: { length (B.entries back) ≤ L.room live },
}

impl<K: Key, V: Copy, L: RecordStore<K, V>, B: RecordStore<K, V>> Backed<K, V, L, B> {
    /// Both stores emptied, so that the back-up fits the live room.
    pub fn over(mut live: L, mut back: B) -> Backed<K, V, L, B>
        ensures room { L.room result.live ≡ L.room live }
        ensures entries { L.entries result.live ≡ [] }
        ensures back_room { B.room result.back ≡ B.room back }
        ensures back { B.entries result.back ≡ [] }
    {
        live.clear();
        back.clear();
        Backed {
            live,
            back,
            of: PhantomData,
        }
    }

    /// The back-up, to look at.
    pub fn back(&self) -> &B
        ensures { result.now ≡ self.now.back }
    {
        &self.back
    }

    /// Makes the back-up's map equal to the live one, or refuses with nothing changed where the back-up has too little room.
    pub fn save(&mut self) -> Result<(), Refusal>
        ensures answer { result ≡ copy_answer (B.room self.old.back) (L.entries self.old.live) }
        ensures live { self.new.live ≡ self.old.live }
        ensures back_room { B.room self.new.back ≡ B.room self.old.back }
        ensures back { B.entries self.new.back ≡ copied (B.room self.old.back) (L.entries self.old.live) (B.entries self.old.back) }
        ensures untouched { B.room self.old.back < length (L.entries self.old.live) → self.new ≡ self.old }
    {
        copy(&self.live, &mut self.back)
    }

    /// Makes the live map equal to the back-up's, which always fits.
    pub fn reload(&mut self)
        ensures room { L.room self.new.live ≡ L.room self.old.live }
        ensures reloads { L.entries self.new.live ≡ B.entries self.old.back }
        ensures back { self.new.back ≡ self.old.back }
    {
        copy(&self.back, &mut self.live).unwrap();
    }
}

impl<K: Key, V: Copy, L: RecordStore<K, V>, B: RecordStore<K, V>> RecordStore<K, V>
    for Backed<K, V, L, B> {
    ghost entries = { λ s. L.entries s.live };

    ghost room = { λ s. L.room s.live };

    fn count(&self) -> usize {
        self.live.count()
    }

    fn room(&self) -> usize {
        self.live.room()
    }

    fn find(&self, k: K) -> Option<V> {
        self.live.find(k)
    }

    fn next(&self, above: &Option<K>) -> Option<K> {
        self.live.next(above)
    }

    fn put(&mut self, k: K, v: V) -> Result<(), Refusal>
        ensures room { L.room self.new.live ≡ L.room self.old.live }
        ensures entries { PutSays (L.room self.old.live) (L.entries self.old.live) (K.number k) v result (L.entries self.new.live) }
        ensures back { self.new.back ≡ self.old.back }
    {
        self.live.put(k, v)
    }

    fn remove(&mut self, k: K) -> bool
        ensures room { L.room self.new.live ≡ L.room self.old.live }
        ensures stood { result ≡ holds (L.entries self.old.live) (K.number k) }
        ensures entries { L.entries self.new.live ≡ without (L.entries self.old.live) (K.number k) }
        ensures back { self.new.back ≡ self.old.back }
    {
        self.live.remove(k)
    }

    fn clear(&mut self)
        ensures room { L.room self.new.live ≡ L.room self.old.live }
        ensures entries { L.entries self.new.live ≡ [] }
        ensures back { self.new.back ≡ self.old.back }
    {
        self.live.clear()
    }

    ghost lawful = { λ s. L.lawful s.live };
}
