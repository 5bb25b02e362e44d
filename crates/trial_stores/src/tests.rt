//! Rows, the tree, and stores with a back-up made of either, against the library's map.
// Where a loop goes over numbers, the number is the case that is tried.
use crate::backing::every_fill_backed;
use crate::drill::{every_fill_of, largest_room};
use key::{Imsi, Key, Tmsi};
use std::alloc::{AllocError, Global};
use std::test::Fail;
use store::{Backed, MOST_ROOM, RecordStore, Row, Rows};
use tree::{Node, SearchTree};

type ImsiRows = Rows<Imsi, u32>;

type ImsiTree = SearchTree<Imsi, u32>;

fn rows_of<K: Key>(heap: Global, n: usize) -> Result<Rows<K, u32>, AllocError> {
    Ok(Rows::over(vec![in heap; Row::spare(9u32); n]?))
}

fn tree_of<K: Key>(heap: Global, n: usize) -> Result<SearchTree<K, u32>, AllocError> {
    Ok(SearchTree::over(vec![in heap; Node::spare(9u32); n]?))
}

fn rows_backed_by_tree(
    heap: Global,
    live: usize,
    back: usize,
) -> Result<Backed<Imsi, u32, ImsiRows, ImsiTree>, AllocError> {
    let live = rows_of::<Imsi>(heap, live)?;
    let back = tree_of::<Imsi>(heap, back)?;
    Ok(Backed::over(live, back))
}

#[test]
fn rows_and_tree_at_every_fill(rt: HostRuntime) -> Result<(), Fail> {
    let heap = rt.alloc();
    for room in 0..7 {
        every_fill_of(&rt, rows_of::<Imsi>(heap, room)?, heap)?;
        every_fill_of(&rt, rows_of::<Tmsi>(heap, room)?, heap)?;
        every_fill_of(&rt, tree_of::<Imsi>(heap, room)?, heap)?;
        every_fill_of(&rt, tree_of::<Tmsi>(heap, room)?, heap)?;
    }
    Ok(())
}

#[test]
fn stores_with_a_back_up_at_every_fill(rt: HostRuntime) -> Result<(), Fail> {
    let heap = rt.alloc();
    for live in 0..5 {
        for back in 0..5 {
            let rows = rows_of::<Imsi>(heap, live)?;
            every_fill_backed(&rt, rows, tree_of::<Imsi>(heap, back)?, heap)?;
            let tree = tree_of::<Imsi>(heap, live)?;
            every_fill_backed(&rt, tree, rows_of::<Imsi>(heap, back)?, heap)?;
        }
    }
    Ok(())
}

/// Either part of a store with a back-up may itself be one.
#[test]
fn stores_with_a_back_up_inside_another(rt: HostRuntime) -> Result<(), Fail> {
    let heap = rt.alloc();
    for room in 0..4 {
        let live = rows_backed_by_tree(heap, room, 2)?;
        let back = rows_backed_by_tree(heap, 2, room)?;
        every_fill_backed(&rt, live, back, heap)?;
    }
    Ok(())
}

#[test]
fn more_memory_than_room(rt: HostRuntime) -> Result<(), Fail> {
    largest_room(&rt, rows_of::<Tmsi>(rt.alloc(), MOST_ROOM + 3)?)?;
    largest_room(&rt, tree_of::<Tmsi>(rt.alloc(), MOST_ROOM + 3)?)
}
