//! Saving and reloading at each fill, beside two maps.
// Where a loop goes over numbers, the number is the case that is tried.
use crate::drill::{Arrival, Drill, compare, widest};
use crate::plain::PlainMap;
use key::{Key, Refusal};
use std::alloc::Global;
use std::process::Abort;
use std::test::Fail;
use store::{Backed, RecordStore};

impl<R: Abort, K: Key, L: RecordStore<K, u32>, B: RecordStore<K, u32>> Drill<
    '_,
    R,
    K,
    Backed<K, u32, L, B>,
> {
    /// Compares the live store and the back-up with the maps for them.
    fn compare_both(&self, saved: &PlainMap) -> Result<(), Fail> {
        self.compare()?;
        compare(self.rt, self.store.back(), saved, self.spread)
    }

    /// Saves, where the back-up has room for all.
    fn save(&mut self, saved: &mut PlainMap) -> Result<(), Fail> {
        let expected = if self.plain.count() <= saved.room() {
            saved.copy_from(&self.plain)?;
            Ok(())
        } else {
            Err(Refusal::BackUpTooSmall)
        };
        assert_eq!(self.rt; self.store.save(), expected, "save");
        self.compare_both(saved)
    }

    /// At one fill: saves, empties and fills half, and reloads; every step is compared on both sides.
    fn save_at(&mut self, saved: &mut PlainMap, fill: usize) -> Result<(), Fail> {
        self.fill(fill, Arrival::Scattered)?;
        self.compare_both(saved)?;
        self.save(saved)?;
        self.fill(fill / 2, Arrival::Falling)?;
        self.compare_both(saved)?;
        self.store.reload();
        self.plain.copy_from(saved)?;
        self.compare_both(saved)
    }

    /// Saves and reloads at each fill from empty to full.
    fn save_and_reload(&mut self, heap: Global) -> Result<(), Fail> {
        self.spread = widest::<K>();
        let mut saved = PlainMap::new(heap, self.store.back().room());
        for fill in 0..=self.plain.room() {
            self.save_at(&mut saved, fill)?;
        }
        Ok(())
    }
}

/// Puts a record at the first key, if there is room.
fn hold_one<K: Key, S: RecordStore<K, u32>>(store: &mut S) {
    if let Some(k) = K::from_number(0) {
        let _ = store.put(k, 7);
    }
}

/// Makes a store with a back-up of two stores that hold something: both are empty then. Runs it through each fill, as
/// any store and then with saving and reloading.
pub fn every_fill_backed<K: Key, L: RecordStore<K, u32> + Drop, B: RecordStore<K, u32> + Drop>(
    rt: &impl Abort,
    mut live: L,
    mut back: B,
    heap: Global,
) -> Result<(), Fail> {
    hold_one(&mut live);
    hold_one(&mut back);
    let live_room = live.room();
    let back_room = back.room();
    let backed = Backed::over(live, back);
    let empty = backed.count() == 0 && backed.back().count() == 0;
    let rooms = backed.room() == live_room && backed.back().room() == back_room;
    assert!(rt; empty && rooms, "making");
    let mut drill = Drill::new(rt, backed, heap);
    drill.every_fill()?;
    drill.save_and_reload(heap)
}
