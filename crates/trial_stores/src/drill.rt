//! One drill for every record store: at each fill from empty to full, keys are taken, dropped and taken again.
// Where a loop goes over numbers, the number is the case that is tried.
use crate::plain::PlainMap;
use key::{Key, Refusal};
use std::alloc::Global;
use std::marker::PhantomData;
use std::process::Abort;
use std::test::Fail;
use store::{MOST_ROOM, RecordStore};

/// How many keys the drill uses. A prime, so that equal steps come by each of them.
pub const KEYS: u64 = 13;

/// The order in which keys arrive.
#[derive(Clone, Copy, PartialEq, Eq, Debug)]
pub enum Arrival {
    Rising,
    Falling,
    Scattered,
}

impl Arrival {
    /// The place of the key that arrives in a turn: always as many places on from the one before, and round again past the last.
    fn place(self, turn: usize) -> u64 {
        let step = match self {
            Arrival::Rising => 1,
            Arrival::Falling => KEYS - 1,
            Arrival::Scattered => 5,
        };
        (turn as u64).wrapping_add(1).wrapping_mul(step) % KEYS
    }
}

/// How far apart the drill's keys are when they reach from 0 to the last key of all, or close to it.
pub fn widest<K: Key>() -> u64 {
    K::LIMIT.wrapping_sub(1) / (KEYS - 1)
}

/// The key at a place of the drill. The keys are `spread` apart, from 0 on.
fn key_at<K: Key>(place: u64, spread: u64) -> Result<K, Fail> {
    // `ok_or` on an optional key that has a ghost field is not covered by the prover
    let Some(k) = K::from_number(place.wrapping_mul(spread)) else {
        return Err(Fail::new("the drill's keys are spread too far"));
    };
    Ok(k)
}

/// Compares all that a store answers without being changed with what it should hold.
pub fn compare<K: Key, S: RecordStore<K, u32>>(
    rt: &impl Abort,
    store: &S,
    plain: &PlainMap,
    spread: u64,
) -> Result<(), Fail> {
    let same = store.count() == plain.count() && store.room() == plain.room();
    assert!(rt; same, "count or room");
    let first = store.next(&None).map(K::to_number);
    assert_eq!(rt; first, plain.least_from(0), "next");
    for place in 0..KEYS {
        let k: K = key_at(place, spread)?;
        let number = k.to_number();
        assert_eq!(rt; store.find(k), plain.find(number), "find");
        let above = plain.least_from(number.wrapping_add(1));
        let next = store.next(&Some(k)).map(K::to_number);
        assert_eq!(rt; next, above, "next above");
    }
    Ok(())
}

/// A store beside the map that says what it should hold: the same calls go to both, and every answer is compared.
#[derive(Drop)]
pub struct Drill<'a, R, K, S> {
    pub rt: &'a R,
    pub store: S,
    pub plain: PlainMap,
    /// How far apart the keys are.
    pub spread: u64,
    of: PhantomData<K>,
}

impl<'a, R: Abort, K: Key, S: RecordStore<K, u32>> Drill<'a, R, K, S> {
    /// A drill of a store that is empty.
    pub fn new(rt: &'a R, store: S, heap: Global) -> Drill<'a, R, K, S> {
        let plain = PlainMap::new(heap, store.room());
        Drill {
            rt,
            store,
            plain,
            spread: 1,
            of: PhantomData,
        }
    }

    /// The key at a place of the drill.
    fn key(&self, place: u64) -> Result<K, Fail> {
        key_at(place, self.spread)
    }

    /// Compares the store with the map.
    pub fn compare(&self) -> Result<(), Fail> {
        compare(self.rt, &self.store, &self.plain, self.spread)
    }

    /// Puts a record into both.
    fn put(&mut self, k: K, record: u32) -> Result<(), Fail> {
        let expected = if self.plain.put(k.to_number(), record)? {
            Ok(())
        } else {
            Err(Refusal::StoreFull)
        };
        assert_eq!(self.rt; self.store.put(k, record), expected, "put");
        self.compare()
    }

    /// Drops a key from both.
    fn remove(&mut self, k: K) -> Result<(), Fail> {
        let expected = self.plain.remove(k.to_number());
        assert_eq!(self.rt; self.store.remove(k), expected, "remove");
        self.compare()
    }

    /// Empties both, and takes as many keys as the fill says.
    pub fn fill(&mut self, fill: usize, arrival: Arrival) -> Result<(), Fail> {
        self.store.clear();
        self.plain.clear();
        self.compare()?;
        for turn in 0..fill {
            let k = self.key(arrival.place(turn))?;
            self.put(k, (turn % 100) as u32)?;
        }
        Ok(())
    }

    /// Each key set anew, dropped and taken again, whether it was there or not.
    fn stir(&mut self) -> Result<(), Fail> {
        for place in 0..KEYS {
            let k = self.key(place)?;
            self.put(k, (place % 100) as u32 + 100)?;
            self.remove(k)?;
            self.remove(k)?;
            let next = self.key((place + 1) % KEYS)?;
            self.put(next, (place % 100) as u32 + 200)?;
            self.put(k, (place % 100) as u32 + 300)?;
        }
        Ok(())
    }

    /// Stirs the store at each fill from empty to full, with keys so far apart.
    fn fills(&mut self, arrival: Arrival, spread: u64) -> Result<(), Fail> {
        self.spread = spread;
        for fill in 0..=self.plain.room() {
            self.fill(fill, arrival)?;
            self.stir()?;
        }
        Ok(())
    }

    /// The smallest and the largest key of all.
    fn both_ends(&mut self) -> Result<(), Fail> {
        self.store.clear();
        self.plain.clear();
        self.spread = 1;
        let first = self.key(0)?;
        let last = self.key(K::LIMIT.wrapping_sub(1))?;
        self.put(last, 1)?;
        self.put(first, 2)?;
        let found = self.store.find(last) == self.plain.find(last.to_number());
        let next = self.store.next(&Some(first)).map(K::to_number) == self.plain.least_from(1);
        let end = self.store.next(&Some(last)).is_none() && K::from_number(K::LIMIT).is_none();
        assert!(self.rt; found && next && end, "the last key of all");
        self.remove(last)
    }

    /// Runs the store through each fill, with keys side by side and as far apart as they go, arriving in each order.
    pub fn every_fill(&mut self) -> Result<(), Fail> {
        for arrival in [Arrival::Rising, Arrival::Falling, Arrival::Scattered] {
            self.fills(arrival, 1)?;
            self.fills(arrival, widest::<K>())?;
        }
        self.both_ends()
    }
}

/// Runs an empty store through each fill.
pub fn every_fill_of<K: Key, S: RecordStore<K, u32> + Drop>(
    rt: &impl Abort,
    store: S,
    heap: Global,
) -> Result<(), Fail> {
    let mut drill = Drill::new(rt, store, heap);
    drill.every_fill()
}

/// Puts each number below 65,536 at the key of that number, in rising order.
fn fill_largest<K: Key, S: RecordStore<K, u32>>(
    rt: &impl Abort,
    store: &mut S,
) -> Result<(), Fail> {
    for number in 0..65_536u32 {
        let k: K = key_at(number as u64, 1)?;
        assert_eq!(rt; store.put(k, number), Ok(()));
    }
    Ok(())
}

/// A store of the largest room, filled: the last place is taken, given back and taken again.
pub fn largest_room<K: Key, S: RecordStore<K, u32> + Drop>(
    rt: &impl Abort,
    mut store: S,
) -> Result<(), Fail> {
    fill_largest(rt, &mut store)?;
    let first: K = key_at(0, 1)?;
    let last: K = key_at(65_535, 1)?;
    let more: K = key_at(65_536, 1)?;
    let full = Err(Refusal::StoreFull);
    assert_eq!(rt; store.put(more, 1), full, "the last place");
    assert!(rt; store.remove(first), "the last place");
    assert_eq!(rt; store.put(more, 2), Ok(()), "the last place");
    assert_eq!(rt; store.put(first, 3), full, "the last place");
    let counted = store.room() == MOST_ROOM && store.count() == MOST_ROOM;
    let found = store.find(last) == Some(65_535) && store.find(more) == Some(2);
    assert!(rt;
        counted && found && store.find(first).is_none(),
        "a full store"
    );
    Ok(())
}
