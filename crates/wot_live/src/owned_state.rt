//! A state without its rows and counts.

ghost use Rattle.std.specs.Prelude.{◌≡◌, All, IfOk, IsSome};
ghost use Rattle.std.specs.FinMap as map;
ghost use Rattle.wot_types.specs.Keyring.{with_keys};
ghost use Rattle.wot_types.specs.Ownertrust.{with_entries};
ghost use Rattle.wot_types.specs.WellFormed.{IsWellFormed};
ghost use Rattle.wot_live.specs.Follows.{owned_state};

use wot_table::{LentState, Table};
use wot_types::{Entries, KeyId, Keys, Mem, Options, Trusts};

/// The parts of a state: keys, ownertrust, date and options.
#[derive(Drop)]
pub struct OwnedState {
    pub table: Table,
    pub trusts: Trusts,
    /// Seconds since 1970.
    pub date: u32,
    pub options: Options,
}

impl OwnedState {
    /// With these keys put, and these entries set, each in turn.
    pub fn put(self, keys: Keys, entries: Entries) -> Result<OwnedState, Mem>
        requires well_formed { All IsWellFormed keys }
        ensures { IfOk result (λ new. owned_state new ≡ record (owned_state self) { keys = with_keys self.table keys; trusts = with_entries self.trusts entries }) }
    {
        let table = self.table.put_all(keys)?;
        let trusts = self.trusts.set_all(entries)?;
        Ok(OwnedState {
            table,
            trusts,
            ..self
        })
    }

    /// Without a key.
    pub fn remove(self, id: KeyId) -> Result<OwnedState, Mem>
        requires there { IsSome (map.get self.table id) }
        ensures { IfOk result (λ new. owned_state new ≡ record (owned_state self) { keys = map.remove self.table id }) }
    {
        let table = self.table.remove(id)?;
        Ok(OwnedState { table, ..self })
    }

    /// The same, lent.
    pub fn lent(&self) -> LentState<'_>
        ensures { result ≡ owned_state self.now }
    {
        LentState::of(&self.table, &self.trusts, self.date, &self.options)
    }
}
