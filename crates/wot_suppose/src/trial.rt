//! Edits of the engine that are taken back.

ghost use Rattle.std.specs.Prelude.{◌≡◌, IfOk};
ghost use Rattle.wot_types.specs.StateAfter.{state_after};
ghost use Rattle.wot_types.specs.Ownertrust.{with_ownertrust, with_trust};
ghost use Rattle.wot_types.specs.Payload.{IsInRange, IsProper};
ghost use Rattle.wot_types.specs.State.{State};
ghost use Rattle.wot_types.specs.Supposing.{IsSupposable};
ghost use Rattle.wot_live.specs.PlainEdit.{IsAllowed, after_plain};
ghost use Rattle.wot_suppose.specs.Trials.{IsTakenBack};

use std::alloc::Global;
use wot_live::{Engine, PlainEdit};
use wot_types::{Edit, Entries, Entry, Fpr, Keys, Mem, Options, Ownertrust, Trust, Trusts};

/// An edit, and the one that takes it back.
#[derive(Drop)]
pub struct Trial {
    pub edit: PlainEdit,
    pub back: PlainEdit,
}

/// An edit of ownertrust, of the date or of the options, and the one that sets what was there before.
pub fn trial_of(engine: &Engine, edit: Edit) -> Result<Trial, Mem>
    requires proper { IsProper edit }
    requires supposable { IsSupposable edit }
    ensures back { IfOk result (IsTakenBack engine.now) }
    ensures after { IfOk result (λ trial. after_plain engine.now trial.edit ≡ state_after engine.now edit) }
{
    match edit {
        Edit::Set(fpr, trust) => trust_trial(engine.table().alloc(), engine.trusts(), &fpr, trust),
        Edit::Date(date) => Ok(date_trial(engine, date)),
        Edit::Options(options) => Ok(options_trial(engine, options)),
        other => {
            drop(other);
            unreachable!()
        }
    }
}

/// The trust of a fingerprint, in a state with this ownertrust; its disabled flag stays.
pub fn trust_trial(alloc: Global, trusts: &Trusts, fpr: &Fpr, trust: Trust) -> Result<Trial, Mem>
    ensures back { IfOk result (λ trial. (s : State) → s.trusts ≡ trusts.now → IsTakenBack s trial) }
    ensures after { IfOk result (λ trial. (s : State) → s.trusts ≡ trusts.now → after_plain s trial.edit ≡ record s { trusts = with_trust s.trusts fpr.now trust }) }
{
    let former = trusts.former(fpr);
    let edit = entry_edit(alloc, fpr, Ownertrust { trust, ..former })?;
    let back = entry_edit(alloc, fpr, former)?;
    Ok(Trial { edit, back })
}

/// Sets what is kept of a fingerprint.
fn entry_edit(alloc: Global, fpr: &Fpr, kept: Ownertrust) -> Result<PlainEdit, Mem>
    ensures allowed { IfOk result (λ edit. (s : State) → IsAllowed s edit) }
    ensures after { IfOk result (λ edit. (s : State) → after_plain s edit ≡ record s { trusts = with_ownertrust s.trusts fpr.now kept }) }
{
    let mut entries = Entries::new(alloc);
    entries.push(Entry {
        fpr: fpr.clone()?,
        trust: kept.trust,
        disabled: kept.disabled,
    })?;
    Ok(PlainEdit::Put(Keys::new(alloc), entries))
}

fn date_trial(engine: &Engine, date: u32) -> Trial
    ensures back { IsTakenBack engine.now result }
    ensures after { after_plain engine.now result.edit ≡ record engine.now { date = date } }
{
    Trial {
        edit: PlainEdit::SetDate(date),
        back: PlainEdit::SetDate(engine.date()),
    }
}

fn options_trial(engine: &Engine, options: Options) -> Trial
    requires ranges { IsInRange options }
    ensures back { IsTakenBack engine.now result }
    ensures after { after_plain engine.now result.edit ≡ record engine.now { options = options } }
{
    Trial {
        edit: PlainEdit::SetOptions(options),
        back: PlainEdit::SetOptions(*engine.options()),
    }
}
