//! The keys whose chains changed.

ghost use Rattle.std.specs.Prelude.{◌≡◌, ◌||◌, ◌==◌, ℕ, [], IfOk};
ghost use Rattle.std.specs.FinMap as map;
ghost use Rattle.std.specs.Option.{option_copied};
ghost use Rattle.wot_live.specs.Recounting.{among, is_carried, is_via_of};

use crate::worklist::Worklist;
use std::alloc::Global;
use wot_types::{KeyId, Mem, Row, Rows};

/// Keys whose chains are others than before the edit, those of levels that are done and those of the level at hand.
#[derive(Drop)]
pub struct Moved {
    pub before: Worklist,
    pub here: Worklist,
}

impl Moved {
    /// No keys, which takes no memory.
    pub fn new(alloc: Global) -> Moved
        ensures before { result.before ≡ [] }
        ensures here { result.here ≡ [] }
    {
        Moved {
            before: Worklist::new(alloc),
            here: Worklist::new(alloc),
        }
    }

    /// Whether a key's chain changes at a level: its row changed, or the chain above it did. The row is looked up where some chain changed before.
    pub fn moves(&self, changed: bool, rows: &Rows, id: KeyId, level: u8) -> bool
        ensures { result ≡ (changed || is_carried self.now.before level (map.get rows.now id)) }
    {
        changed || self.before.len() != 0 && self.carries(rows.get(id), level)
    }

    /// Whether a row is of this level, and was delegated to by a key whose chain changed at a level before.
    fn carries(&self, row: Option<&Row>, level: u8) -> bool
        ensures { result ≡ is_carried self.now.before level (option_copied row.entry) }
    {
        match row {
            Some(row) => row.level == level && self.has_via_of(row),
            None => false,
        }
    }

    fn has_via_of(&self, row: &Row) -> bool
        ensures { result ≡ is_via_of self.now.before row.now }
    {
        match row.via {
            Some(id) => self.before.has(id),
            None => false,
        }
    }

    /// A key's chain changed at the level at hand.
    pub fn add(self, id: KeyId) -> Result<Moved, Mem>
        ensures before { IfOk result (λ new. new.before ≡ self.before) }
        ensures here { IfOk result (λ new. (y : ℕ) → among new.here y ≡ (among self.here y || (id == y))) }
    {
        let Moved { before, here } = self;
        Ok(Moved {
            before,
            here: here.add(id)?,
        })
    }

    /// The level at hand is done.
    pub fn next(self, alloc: Global) -> Result<Moved, Mem>
        ensures before { IfOk result (λ new. (y : ℕ) → among new.before y ≡ (among self.before y || among self.here y)) }
        ensures here { IfOk result (λ new. new.here ≡ []) }
    {
        let Moved { before, here } = self;
        Ok(Moved {
            before: before.add_all(here.as_slice())?,
            here: Worklist::new(alloc),
        })
    }
}
