//! What lies in the slots after each change, which no client can see.
use crate::meaning::RecordStore;
use crate::row::Row;
use crate::rows::Rows;
use key::{Refusal, Tmsi};
use std::process::Abort;
use std::test::Fail;

type TmsiRows = Rows<Tmsi, u32>;

/// Checks the key numbers that lie in the four slots.
fn check_slots(rt: &impl Abort, store: &TmsiRows, keys: [u64; 4]) {
    for (row, key) in store.rows.iter().zip(keys.iter()) {
        assert_eq!(rt; row.key, *key);
    }
}

#[test]
fn larger_rows_move_by_one(rt: HostRuntime) -> Result<(), Fail> {
    let mut store: TmsiRows = Rows::over(vec![in rt.alloc(); Row::spare(9u32); 4]?);
    for number in [6u32, 2, 4] {
        assert!(rt; store.put(Tmsi { number }, number).is_ok());
    }
    check_slots(&rt, &store, [2, 4, 6, 0]);
    assert!(rt; store.put(Tmsi { number: 5 }, 50).is_ok());
    check_slots(&rt, &store, [2, 4, 5, 6]);
    assert!(rt; store.put(Tmsi { number: 3 }, 30).is_err());
    assert!(rt; store.put(Tmsi { number: 4 }, 40).is_ok());
    check_slots(&rt, &store, [2, 4, 5, 6]);
    assert!(rt; store.remove(Tmsi { number: 4 }));
    check_slots(&rt, &store, [2, 5, 6, 6]);
    store.clear();
    check_slots(&rt, &store, [2, 5, 6, 6]);
    Ok(())
}
