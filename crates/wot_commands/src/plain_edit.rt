//! The engine's edit that an edit of a command stands for.

ghost use Rattle.std.specs.Prelude.{◌≡◌, ◌∷◌, [], None, IfOk};
ghost use Rattle.wot_types.specs.Named.{named_by};
ghost use Rattle.wot_types.specs.Outcome.{refusal_of};
ghost use Rattle.wot_types.specs.StateAfter.{state_after};
ghost use Rattle.wot_types.specs.Ownertrust.{entry_of};
ghost use Rattle.wot_types.specs.Payload.{IsProper};
ghost use Rattle.wot_types.specs.State.{State};
ghost use Rattle.wot_live.specs.PlainEdit.{IsAllowed, after_plain, named_by_plain};

use crate::entries::{kept_with_flag, kept_with_trust};
use std::alloc::Global;
use wot_live::PlainEdit;
use wot_types::{Edit, Entries, Entry, Fpr, Keys, Mem, Ownertrust, Trusts};

/// What an edit does to each state with this ownertrust.
#[tactic(auto, using(crate::proofs::Free::none_taken))]
pub fn plain_edit(alloc: Global, trusts: &Trusts, edit: Edit) -> Result<PlainEdit, Mem>
    requires proper { IsProper edit }
    ensures after { IfOk result (λ plain. (s : State) → s.trusts ≡ trusts.now → after_plain s plain ≡ state_after s edit) }
    ensures named { IfOk result (λ plain. (s : State) → named_by_plain s plain ≡ named_by s edit) }
    ensures allowed { IfOk result (λ plain. (s : State) → refusal_of s edit ≡ None → IsAllowed s plain) }
{
    match edit {
        Edit::Import(keys) => Ok(PlainEdit::Put(keys, Entries::new(alloc))),
        Edit::Ownertrust(entries) => Ok(PlainEdit::Put(Keys::new(alloc), entries)),
        Edit::Set(fpr, trust) => {
            let kept = kept_with_trust(trusts, &fpr, trust);
            Ok(PlainEdit::Put(Keys::new(alloc), one_entry(alloc, fpr, kept)?))
        }
        Edit::Flag(fpr, disabled) => {
            let kept = kept_with_flag(trusts, &fpr, disabled);
            Ok(PlainEdit::Put(Keys::new(alloc), one_entry(alloc, fpr, kept)?))
        }
        Edit::Delete(id) => Ok(PlainEdit::Remove(id)),
        Edit::Date(date) => Ok(PlainEdit::SetDate(date)),
        Edit::Options(options) => Ok(PlainEdit::SetOptions(options)),
        Edit::Sample(seed, count) => {
            let keys = wot_gen::keys(alloc, seed, count)?;
            let entries = wot_gen::entries(alloc, seed, count)?;
            Ok(PlainEdit::Put(keys, entries))
        }
    }
}

/// The entry of a fingerprint of which this is kept.
fn one_entry(alloc: Global, fpr: Fpr, kept: Ownertrust) -> Result<Entries, Mem>
    ensures { IfOk result (λ entries. entries ≡ entry_of (fpr, kept) ∷ []) }
{
    let mut entries = Entries::new(alloc);
    entries.push(Entry {
        fpr,
        trust: kept.trust,
        disabled: kept.disabled,
    })?;
    Ok(entries)
}
