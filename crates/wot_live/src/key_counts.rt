//! The counts of one key as they are kept.

ghost use Rattle.std.specs.Prelude.{◌≡◌, ◌++◌, ◌∷◌, [], IfOk};
ghost use Rattle.wot_live.specs.OneOrMany.{listed_counts};

use std::alloc::Global;
use std::marker::Model;
use wot_types::{Count, List, Mem};

/// That of a key with one user ID, as most keys are, stands where the key's entry does; those of any other are a list.
#[derive(Debug, Drop)]
pub enum OneOrMany {
    One([Count; 1]),
    Many(List<Count>),
}

/// The counts of a key's user IDs, in their order.
#[derive(Debug, Drop)]
pub struct KeyCounts {
    counts: OneOrMany,
}

impl Model for KeyCounts {
    ghost use Rattle.std.specs.Prelude.{List};
    ghost use Rattle.std.specs.Coded.{coded_list};
    ghost use Rattle.wot_types.specs.declared.count.Count.{Count};
    ghost use Rattle.wot_types.specs.contracts.count.Count as count_struct;
    ghost use Rattle.wot_live.specs.OneOrMany.{listed_counts};

    ghost Value = { List Count };

    ghost coded = { coded_list count_struct.the_row.coded };

    ghost view = { λ k. listed_counts k.counts };
}

impl KeyCounts {
    /// No counts, which takes no memory.
    pub fn new(alloc: Global) -> KeyCounts
        ensures { result ≡ [] }
    {
        KeyCounts {
            counts: OneOrMany::Many(List::new(alloc)),
        }
    }

    /// With the count of the next user ID.
    pub fn push(self, alloc: Global, count: Count) -> Result<KeyCounts, Mem>
        ensures { IfOk result (λ new. new ≡ self ++ count ∷ []) }
    {
        let counts = match self.counts {
            OneOrMany::One(one) => OneOrMany::Many(listed(alloc, one.as_slice(), count)?),
            OneOrMany::Many(counts) => pushed(counts, count)?,
        };
        Ok(KeyCounts { counts })
    }

    pub fn as_slice(&self) -> &[Count]
        ensures { result.now ≡ self.now }
    {
        match &self.counts {
            OneOrMany::One(counts) => counts.as_slice(),
            OneOrMany::Many(counts) => counts.as_slice(),
        }
    }
}

/// A list of these counts and one more.
fn listed(alloc: Global, counts: &[Count], count: Count) -> Result<List<Count>, Mem>
    ensures { IfOk result (λ new. new ≡ counts.now ++ count ∷ []) }
{
    let mut all = Vec::new(alloc);
    all.extend_from_slice(counts)?;
    all.push(count)?;
    Ok(List::from_vec(all))
}

/// These counts and one more, which stands alone where there are none.
fn pushed(counts: List<Count>, count: Count) -> Result<OneOrMany, Mem>
    ensures { IfOk result (λ new. listed_counts new ≡ counts ++ count ∷ []) }
{
    if counts.is_empty() {
        return Ok(OneOrMany::One([count]));
    }
    let mut counts = counts;
    counts.push(count)?;
    Ok(OneOrMany::Many(counts))
}
