//! What of a state is to be counted.

ghost use Rattle.std.specs.Prelude.{◌≡◌, None, IfOk};
ghost use Rattle.std.specs.FinMap as map;
ghost use Rattle.wot_types.specs.Keyring.{taken_id, with_keys};
ghost use Rattle.wot_types.specs.Ownertrust.{with_entries};
ghost use Rattle.wot_types.specs.Explanation.{KeySet};
ghost use Rattle.wot_types.specs.State.{State};
ghost use Rattle.wot_types.specs.Touched.{named_by_date, named_by_put, named_by_remove};
ghost use Rattle.wot_live.specs.Follows.{HasIntroducers, IsDueSince, with_named};

use crate::counts::Counts;
use crate::named::{has_back, named_by_date, named_by_put};
use crate::worklist::Worklist;
use wot_table::Table;
use wot_types::{Entries, KeyId, Keys, Mem, Rows};

/// What edits left to be counted.
#[derive(Drop)]
pub enum Todo {
    /// All keys.
    All,
    /// The keys that the edits named.
    Named(Named),
}

/// The rows and counts of the state before some edits, and the keys that these named.
#[derive(Drop)]
pub struct Named {
    pub rows: Rows,
    pub counts: Counts,
    pub list: Worklist,
}

impl Todo {
    /// Keys are put and entries set, beside the edits before. Into a keyring without keys all that it has then are put. Where a key comes to
    /// a key ID that had a row and lost its key, that row may be given again though the key is another: all keys are to be counted then.
    pub fn put(self, table: &Table, keys: &Keys, entries: &Entries) -> Result<Todo, Mem>
        ensures since { (s t : State) (names : KeySet) → t.keys ≡ table.now → taken_id t.keys keys.now ≡ None → HasIntroducers t.keys self → IsDueSince s names t self
            → IfOk result (IsDueSince s (with_named names (named_by_put t keys.now entries.now)) (record t { keys = with_keys t.keys keys.now; trusts = with_entries t.trusts entries.now })) }
        ensures due { (s t : State) (names : KeySet) → t.keys ≡ table.now → taken_id t.keys keys.now ≡ None → IsDueSince s names t self
            → IfOk result (λ todo. (more : KeySet) × IsDueSince s more (record t { keys = with_keys t.keys keys.now; trusts = with_entries t.trusts entries.now }) todo) }
    {
        if table.totals().keys == 0 {
            return Ok(Todo::All);
        }
        let Todo::Named(Named { rows, counts, list }) = self else {
            return Ok(Todo::All);
        };
        if has_back(table, &rows, keys) {
            return Ok(Todo::All);
        }
        let list = named_by_put(list, table, keys, entries)?;
        Ok(Todo::Named(Named { rows, counts, list }))
    }

    /// A key is taken out.
    pub fn remove(self, id: KeyId) -> Result<Todo, Mem>
        ensures { (s t : State) (names : KeySet) → IsDueSince s names t self
            → IfOk result (IsDueSince s (with_named names (named_by_remove id)) (record t { keys = map.remove t.keys id })) }
    {
        let Todo::Named(Named { rows, counts, list }) = self else {
            return Ok(Todo::All);
        };
        let list = list.add(id)?;
        Ok(Todo::Named(Named { rows, counts, list }))
    }

    /// The date is set from one to another.
    pub fn set_date(self, table: &Table, from: u32, to: u32) -> Result<Todo, Mem>
        ensures { (s t : State) (names : KeySet) → t.keys ≡ table.now → t.date ≡ from → IsDueSince s names t self
            → IfOk result (IsDueSince s (with_named names (named_by_date t to)) (record t { date = to })) }
    {
        let Todo::Named(Named { rows, counts, list }) = self else {
            return Ok(Todo::All);
        };
        let list = named_by_date(list, table, from, to)?;
        Ok(Todo::Named(Named { rows, counts, list }))
    }

    /// The same, with all keys in place of a list that has each key of the table.
    pub fn all_if_whole(self, table: &Table) -> Todo
        ensures { (s t : State) (names : KeySet) → t.keys ≡ table.now → IsDueSince s names t self → IsDueSince s names t result }
    {
        let Todo::Named(named) = self else {
            return Todo::All;
        };
        if named.list.is_whole(table) {
            return Todo::All;
        }
        Todo::Named(named)
    }
}
