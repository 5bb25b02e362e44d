//! A full tree: 65,536 subscribers that arrive in rising order, which would make a list of a plain binary tree.

#![tactic(auto)]

use key::{Imsi, Key};
use std::io;
use std::iter::successors;
use store::RecordStore;
use tree::{Node, SearchTree};

/// The largest room.
const ROOM: u64 = 65_536;

/// The i-th subscriber in rising order.
fn subscriber(i: u64) -> Option<Imsi> {
    Imsi::new(i.wrapping_add(262_010_000_000_000))
}

/// Puts the first `n` subscribers, each with its place as the record, and counts those taken.
fn fill<S: RecordStore<Imsi, u64>>(store: &mut S, n: u64) -> usize {
    (0..n)
        .filter(|i| subscriber(*i).is_some_and(|imsi| store.put(imsi, *i).is_ok()))
        .count()
}

/// Counts those of the first `n` subscribers that have their own record.
fn find_all<S: RecordStore<Imsi, u64>>(store: &S, n: u64) -> usize {
    (0..n)
        .filter(|i| subscriber(*i).and_then(|imsi| store.find(imsi)) == Some(*i))
        .count()
}

/// Drops every second of the first `n` subscribers, and counts those that stood there.
fn drop_half<S: RecordStore<Imsi, u64>>(store: &mut S, n: u64) -> usize {
    (0..n)
        .step_by(2)
        .filter_map(subscriber)
        .filter(|imsi| store.remove(*imsi))
        .count()
}

/// What a walk by `next` came to: how many keys, how many of them above the one before, and a digest of them.
#[derive(Clone, Copy, Default)]
struct Walked {
    keys: u64,
    rising: u64,
    digest: u64,
    last: u64,
}

impl Walked {
    /// One key further.
    fn to(self, number: u64) -> Walked {
        Walked {
            keys: self.keys.wrapping_add(1),
            rising: self.rising.wrapping_add(u64::from(self.last < number)),
            digest: self.digest.wrapping_mul(31).wrapping_add(number),
            last: number,
        }
    }
}

/// Walks over at most `n` keys.
fn walk<S: RecordStore<Imsi, u64>>(store: &S, n: usize) -> Walked {
    successors(store.next(&None), |last| store.next(&Some(*last)))
        .take(n)
        .fold(Walked::default(), |walk, imsi| walk.to(imsi.to_number()))
}

fn main(rt: HostRuntime) -> io::Result<()> {
    let nodes = vec![in rt.alloc(); Node::spare(0u64); ROOM as usize]?;
    let mut store: SearchTree<Imsi, u64> = SearchTree::over(nodes);
    println!(rt; "a key has {} binary digits", store.key_digits())?;
    let put = fill(&mut store, ROOM + 1);
    println!(rt; "put {put} of 65537, count {}", store.count())?;
    println!(rt; "found {}", find_all(&store, ROOM))?;
    let dropped = drop_half(&mut store, ROOM);
    println!(rt; "dropped {dropped}, count {}", store.count())?;
    let walked = walk(&store, ROOM as usize);
    println!(rt;
        "walked {}, rising {}, digest {}",
        walked.keys, walked.rising, walked.digest
    )?;
    let again = fill(&mut store, ROOM);
    println!(rt; "put {again} again, count {}", store.count())?;
    store.clear();
    println!(rt; "cleared, count {}", store.count())
}
