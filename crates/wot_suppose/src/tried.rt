//! The engine without the ownertrust of one entry after the other.

ghost use Rattle.std.specs.Prelude.{◌≡◌, IfOk};
ghost use Rattle.wot_types.specs.Supposing.{without_trust};
ghost use Rattle.wot_live.specs.PlainEdit.{IsAllowed};
ghost use Rattle.wot_suppose.specs.Trials.{state_before};

use crate::trial::{Trial, trust_trial};
use std::sync::ledger::Ledger;
use wot_live::{Engine, PlainEdit};
use wot_types::{Entries, Fpr, Keys, Mem, Steps, Trust};

/// An engine after an edit, and the edit that takes it back.
#[derive(Drop)]
pub struct Tried {
    pub engine: Engine,
    pub back: PlainEdit,
}

impl Tried {
    /// Nothing is edited.
    pub fn nothing(engine: Engine) -> Tried
        ensures allowed { IsAllowed result.engine result.back }
        ensures before { state_before result ≡ engine }
    {
        let alloc = engine.table().alloc();
        Tried {
            engine,
            back: PlainEdit::Put(Keys::new(alloc), Entries::new(alloc)),
        }
    }

    /// The former edit is taken back, and the ownertrust of this fingerprint is unknown: both are counted at once.
    pub fn without<L: Ledger>(self, fpr: &Fpr, steps: &mut Steps<L>) -> Result<Tried, Mem>
        requires allowed { IsAllowed self.engine self.back }
        ensures allowed { IfOk result (λ new. IsAllowed new.engine new.back) }
        ensures before { IfOk result (λ new. state_before new ≡ state_before self) }
        ensures engine { IfOk result (λ new. new.engine ≡ without_trust (state_before self) fpr.now) }
    {
        let Tried { engine, back } = self;
        let draft = engine.into_draft().make(back)?;
        let alloc = draft.table().alloc();
        let Trial { edit, back } = trust_trial(alloc, draft.trusts(), fpr, Trust::Unknown)?;
        let engine = draft.make(edit)?.count(steps)?;
        Ok(Tried { engine, back })
    }

    /// The engine before the edit.
    pub fn taken_back<L: Ledger>(self, steps: &mut Steps<L>) -> Result<Engine, Mem>
        requires allowed { IsAllowed self.engine self.back }
        ensures { IfOk result (λ engine. engine ≡ state_before self) }
    {
        self.engine.make(self.back, steps)
    }
}
