//! A filter of key IDs.

ghost use Rattle.std.specs.Prelude.{◌≡◌, ◌%◌, ℕ, false};
ghost use Rattle.wot_types.specs.IdFilter.{Passes};

use crate::key_id::KeyId;
use crate::mem::Mem;
use std::alloc::Global;
use std::marker::Model;

/// How many places there are for key IDs, 16 kilobytes.
const PLACES: usize = 16_384;

/// Which key IDs may be among some: each that was added passes, and of others those that share their last 14 bits with one of these. A look for what isn't there
/// ends here without a search, as in a Bloom filter.
#[derive(Debug, Drop)]
pub struct IdFilter {
    marks: Vec<bool>,
}

impl Model for IdFilter {
    ghost use Rattle.std.specs.Prelude.{◌≡◌, List, Bool, length};

    ghost Value = { List Bool };

    ghost view = { λ f. f.marks.items };

    ghost invariant = { λ f. length f.marks.items ≡ 16_384 };
}

impl IdFilter {
    /// None passes.
    pub fn new(alloc: Global) -> Result<IdFilter, Mem> {
        Ok(IdFilter {
            marks: vec![in alloc; false; PLACES]?,
        })
    }

    /// Whether the key ID may have been added.
    pub fn may_have(&self, id: KeyId) -> bool
        ensures { result ≡ false → Passes self.now id → ⊥ }
    {
        self.marks[place_of(id)]
    }

    /// Lets a key ID pass, beside those that passed.
    pub fn add(&mut self, id: KeyId)
        ensures added { Passes self.new id }
        ensures kept { (other : ℕ) → Passes self.old other → Passes self.new other }
    {
        self.marks[place_of(id)] = true;
    }
}

fn place_of(id: KeyId) -> usize
    ensures { result ≡ id % 16_384 }
{
    (id.0 % PLACES as u64) as usize
}
