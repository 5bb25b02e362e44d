//! How many keys a store can have room for, and whether there is room for one more.
ghost use Rattle.std.specs.Prelude.{◌≡◌};
ghost use Rattle.store.specs.Model.{room_answer};

use crate::meaning::RecordStore;
use key::{Key, Refusal};

/// No store has room for more keys than this, however much memory is handed in.
pub const MOST_ROOM: usize = 65_536;

/// What a put at the key would answer, with nothing changed: a caller that has more to do than the put asks this first.
pub fn room_for<K: Key, V: Copy, S: RecordStore<K, V>>(store: &S, k: K) -> Result<(), Refusal>
    ensures { result ≡ room_answer (S.room store.now) (S.entries store.now) (K.number k) }
{
    if store.find(k).is_some() || store.count() < store.room() {
        Ok(())
    } else {
        Err(Refusal::StoreFull)
    }
}
