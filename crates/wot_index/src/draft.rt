//! An index while pairs come: new pairs wait, so that many are sorted and added together.

ghost use Rattle.std.specs.Prelude.{◌≡◌, ℕ, [], ◌&&◌, ◌||◌, true, not, IfOk, OnOk};
ghost use Rattle.wot_index.specs.Indexed.{drafts, has, has_pair};

use crate::index::Index;
use std::alloc::Global;
use std::mem::replace;
use wot_types::{KeyId, Mem};

/// An index, and the pairs that it is still to have.
#[derive(Drop)]
pub struct Draft {
    alloc: Global,
    index: Index,
    later: Vec<(u64, KeyId)>,
}

impl Draft {
    /// The index as it is; no pair waits.
    pub fn open(alloc: Global, index: Index) -> Draft
        ensures { (n id : ℕ) → drafts result n id ≡ has index n id }
    {
        Draft {
            alloc,
            index,
            later: Vec::new(alloc),
        }
    }

    /// The index with all pairs.
    pub fn close(self) -> Result<Index, Mem>
        ensures { IfOk result (λ index. (n id : ℕ) → has index n id ≡ drafts self n id) }
    {
        let mut draft = self;
        draft.settle()?;
        let Draft { index, .. } = draft;
        Ok(index)
    }

    /// The pairs are to stand in it too.
    pub fn add(&mut self, pairs: Vec<(u64, KeyId)>) -> Result<(), Mem>
        ensures { OnOk result ((n id : ℕ) → drafts self.new n id ≡ (drafts self.old n id || has_pair n id pairs.items)) }
    {
        if self.later.is_empty() {
            self.later = pairs;
            return Ok(());
        }
        let mut pairs = pairs;
        self.later.append(&mut pairs)?;
        Ok(())
    }

    /// Other pairs stand in it in place of these, which stand in it. Where they are the same in the same order, nothing is done.
    pub fn replace(&mut self, gone: &[(u64, KeyId)], come: Vec<(u64, KeyId)>) -> Result<(), Mem>
        requires there { (n id : ℕ) → has_pair n id gone.now ≡ true → drafts self.old n id ≡ true }
        ensures { OnOk result ((n id : ℕ) → drafts self.new n id ≡ ((drafts self.old n id && not (has_pair n id gone.now)) || has_pair n id come.items)) }
    {
        // A key that is imported again mostly has the pairs that it had.
        if gone == come.as_slice() {
            return Ok(());
        }
        self.settle()?;
        self.index.remove_all(gone);
        self.add(come)
    }

    /// No pair waits any more.
    fn settle(&mut self) -> Result<(), Mem>
        ensures same { OnOk result ((n id : ℕ) → has self.new.index n id ≡ drafts self.old n id) }
        ensures none { OnOk result (self.new.later.items ≡ []) }
    {
        let later = replace(&mut self.later, Vec::new(self.alloc));
        self.index.add_all(later)
    }
}
