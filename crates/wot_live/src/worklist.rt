//! The keys that are to be recounted.

ghost use Rattle.std.specs.Prelude.{◌≡◌, ◌<◌, ◌∷◌, ℕ, [], nat_eq, length, IfOk};
ghost use Rattle.std.specs.List.{IsDistinct};
ghost use Rattle.wot_types.specs.Indexes.{has_cert_by};
ghost use Rattle.wot_live.specs.Recounting.{IsGrownBy, IsWhole, among, ids_at, with_id};

use std::alloc::Global;
use std::collections::BTreeSet;
use std::marker::Model;
use wot_table::Table;
use wot_types::{KeyId, Mem};

/// Keys in the order in which they came, each once.
#[derive(Drop)]
pub struct Worklist {
    ids: Vec<KeyId>,
    seen: BTreeSet<KeyId>,
}

impl Model for Worklist {
    ghost use Rattle.std.specs.Prelude.{ℕ, List};
    ghost use Rattle.std.specs.Coded.{coded_ℕ, coded_list};
    ghost use Rattle.wot_live.specs.Listed.{IsListed};

    ghost Value = { List ℕ };

    ghost coded = { coded_list coded_ℕ };

    ghost view = { λ w. w.ids.items };

    ghost invariant = { λ w. IsListed w.ids.items w.seen };
}

impl Worklist {
    /// No keys, which takes no memory.
    pub fn new(alloc: Global) -> Worklist
        ensures { result ≡ [] }
    {
        Worklist {
            ids: Vec::new(alloc),
            seen: BTreeSet::new(alloc),
        }
    }

    /// How many keys there are.
    pub fn len(&self) -> usize
        ensures len { result ≡ length self.now }
        ensures distinct { IsDistinct nat_eq self.now }
    {
        self.ids.len()
    }

    /// A key by its place, from 0.
    pub fn id(&self, i: usize) -> KeyId
        requires inside { i < length self.now }
        ensures { ids_at self.now i ≡ result ∷ [] }
    {
        self.ids[i]
    }

    /// Whether a key is there.
    pub fn has(&self, id: KeyId) -> bool
        ensures { result ≡ among self.now id }
    {
        self.seen.contains(&id)
    }

    pub fn as_slice(&self) -> &[KeyId]
        ensures { result.now ≡ self.now }
    {
        self.ids.as_slice()
    }

    /// Adds a key, unless it is there.
    pub fn add(self, id: KeyId) -> Result<Worklist, Mem>
        ensures { IfOk result (λ new. new ≡ with_id self id) }
    {
        let Worklist { mut ids, mut seen } = self;
        if !seen.insert(id)? {
            return Ok(Worklist { ids, seen });
        }
        ids.push(id)?;
        Ok(Worklist { ids, seen })
    }

    /// Whether each key of the table is there.
    pub fn is_whole(&self, table: &Table) -> bool
        ensures { IsWhole table.now result self.now }
    {
        if (self.ids.len() as u64) < table.totals().keys {
            return false;
        }
        let mut after = None;
        while let Some(id) = table.next_key(after) {
            if !self.seen.contains(&id) {
                return false;
            }
            after = Some(id);
        }
        true
    }

    /// Adds those of these keys that aren't there.
    pub fn add_all(self, ids: &[KeyId]) -> Result<Worklist, Mem>
        ensures { IfOk result (IsGrownBy (among ids.now) self) }
    {
        let mut list = self;
        for id in ids {
            list = list.add(*id)?;
        }
        Ok(list)
    }
}

/// The keys that an issuer certified.
pub fn certified_by(table: &Table, issuer: KeyId) -> Result<Vec<KeyId>, Mem>
    ensures { IfOk result (λ ids. (x : ℕ) → among ids.items x ≡ has_cert_by table.now issuer x) }
{
    let mut ids = Vec::new(table.alloc());
    let mut after = None;
    while let Some(id) = table.signed_by(issuer, after) {
        let _ = id.0;
        ids.push(id)?;
        after = Some(id);
    }
    Ok(ids)
}
