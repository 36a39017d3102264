//! A table while keys are put.

ghost use Rattle.std.specs.Prelude.{◌≡◌, ℕ, ◌==◌, ◌&&◌, ◌||◌, not, IfOk};
ghost use Rattle.wot_index.specs.Indexed.{drafts, has_pair};
ghost use Rattle.wot_table.specs.Headings.{is_under};
ghost use Rattle.wot_types.specs.Keyring.{with_key};
ghost use Rattle.wot_types.specs.WellFormed.{IsWellFormed};

use crate::heading::Heading;
use crate::held::{Held, weight_or_none};
use crate::sums::Sums;
use std::alloc::Global;
use std::collections::BTreeMap;
use std::marker::Model;
use wot_index::Draft;
use wot_types::{Key, KeyId, Mem};

/// The parts of a table whose indexes are still to have some pairs.
#[derive(Drop)]
pub struct Filing {
    pub(crate) alloc: Global,
    pub(crate) keys: BTreeMap<KeyId, Held>,
    pub(crate) sums: Sums,
    /// None where no index by issuers is kept.
    pub(crate) signed: Option<Draft>,
    pub(crate) dated: Draft,
}

impl Model for Filing {
    ghost use Rattle.std.specs.Ordering.{nat_cmp};
    ghost use Rattle.std.specs.FinMap as map;
    ghost use Rattle.std.specs.Coded.{coded_ℕ};
    ghost use Rattle.wot_types.specs.declared.key.Key.{Key as KeySeen};
    ghost use Rattle.wot_types.specs.contracts.key.Key as key_struct;
    ghost use Rattle.wot_table.specs.Headings.{IsIndexed};
    ghost use Rattle.wot_index.specs.Indexed.{drafts};

    ghost Value = { map.FinMap nat_cmp KeySeen };

    ghost coded = { map.code coded_ℕ key_struct.the_row.coded };

    ghost view = { λ f. map.from_entries f.keys.entries };

    ghost invariant = { λ f. IsIndexed (map.from_entries f.keys.entries) f.sums drafts f.signed (drafts f.dated) };
}

impl Filing {
    /// Adds a key, or replaces the one of its key ID.
    pub fn put(self, key: Key) -> Result<Filing, Mem>
        requires well_formed { IsWellFormed key }
        ensures { IfOk result (λ new. new ≡ with_key self key) }
    {
        let Filing {
            alloc,
            mut keys,
            sums,
            signed,
            dated,
        } = self;
        let id = key.fpr.key_id();
        let held = Held::hold(alloc, key)?;
        let issuers = held.pairs(alloc, Heading::Issuer, id)?;
        let expiries = held.pairs(alloc, Heading::Expiry, id)?;
        let weight = held.weight();
        let _fewer_than_2_63 = keys.len();
        let more = sums.plus(weight);
        let former = keys.insert(id, held)?;
        let signed = match signed {
            Some(draft) => Some(filed(alloc, draft, Heading::Issuer, id, &former, issuers)?),
            None => None,
        };
        let dated = filed(alloc, dated, Heading::Expiry, id, &former, expiries)?;
        let sums = more.minus(weight_or_none(&former));
        Ok(Filing {
            alloc,
            keys,
            sums,
            signed,
            dated,
        })
    }
}

/// The draft in which the former key's pairs, if there was one, gave way to the new key's.
fn filed(
    alloc: Global,
    draft: Draft,
    heading: Heading,
    id: KeyId,
    former: &Option<Held>,
    come: Vec<(u64, KeyId)>,
) -> Result<Draft, Mem>
    requires former { (n : ℕ) → drafts draft n id ≡ is_under heading n former.now }
    ensures { IfOk result (λ new. (n k : ℕ) → drafts new n k ≡ ((drafts draft n k && not (k == id)) || has_pair n k come.items)) }
{
    let mut draft = draft;
    match former {
        Some(former) => draft.replace(&former.pairs(alloc, heading, id)?, come)?,
        None => draft.add(come)?,
    }
    Ok(draft)
}
