//! What a store should hold, kept in the library's map.
use std::alloc::{AllocError, Global};
use std::collections::BTreeMap;

#[derive(Drop)]
pub struct PlainMap {
    entries: BTreeMap<u64, u32>,
    room: usize,
}

impl PlainMap {
    pub fn new(heap: Global, room: usize) -> PlainMap {
        PlainMap {
            entries: BTreeMap::new(heap),
            room,
        }
    }

    pub fn count(&self) -> usize {
        self.entries.len()
    }

    pub fn room(&self) -> usize {
        self.room
    }

    pub fn find(&self, number: u64) -> Option<u32> {
        self.entries.get(&number).copied()
    }

    /// The smallest number that is at least `from`.
    pub fn least_from(&self, from: u64) -> Option<u64> {
        self.entries.range(from..).next().map(|(number, _)| *number)
    }

    /// Sets the record at the number, if there is room, and says whether there was.
    pub fn put(&mut self, number: u64, record: u32) -> Result<bool, AllocError> {
        let fits = self.entries.contains_key(&number) || self.entries.len() < self.room;
        if fits {
            self.entries.insert(number, record)?;
        }
        Ok(fits)
    }

    pub fn remove(&mut self, number: u64) -> bool {
        self.entries.remove(&number).is_some()
    }

    pub fn clear(&mut self) {
        self.entries.clear();
    }

    /// Makes this map hold what the other holds.
    pub fn copy_from(&mut self, other: &PlainMap) -> Result<(), AllocError> {
        self.entries = other.entries.clone()?;
        Ok(())
    }
}
