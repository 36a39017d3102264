//! A state by its parts.

ghost use Rattle.std.specs.Prelude.{◌≡◌, ◌≤◌, ◌+◌, ◌*◌, ◌<◌, IfOk};
ghost use Rattle.wot_types.specs.Keyring.{cert_total};
ghost use Rattle.wot_live.specs.PlainEdit.{IsAllowed, after_plain};

use crate::engine::Engine;
use crate::plain_edit::PlainEdit;
use crate::uncounted::Uncounted;
use std::marker::{Brand, Model};
use std::sync::ledger::{Blank, Ledger};
use wot_table::Table;
use wot_types::{Mem, Steps, Trusts};

/// The parts of a state that is not counted yet: for several edits in a row, which are counted once.
#[derive(Drop)]
pub struct EngineDraft {
    pub(crate) uncounted: Uncounted,
}

impl Model for EngineDraft {
    ghost use Rattle.wot_types.specs.State.{State};
    ghost use Rattle.wot_types.specs.StateCode.{state_code};
    ghost use Rattle.wot_live.specs.Follows.{HasLeft, uncounted_state};

    ghost Value = { State };

    ghost coded = { state_code };

    ghost view = { λ p. uncounted_state p.uncounted };

    ghost invariant = { λ p. HasLeft (uncounted_state p.uncounted) p.uncounted.todo };
}

impl EngineDraft {
    /// Makes an edit; the parts are gone after want of memory.
    pub fn make(self, edit: PlainEdit) -> Result<EngineDraft, Mem>
        requires allowed { IsAllowed self edit }
        ensures { IfOk result (λ new. new ≡ after_plain self edit) }
    {
        let uncounted = self.uncounted.make(edit)?;
        Ok(EngineDraft { uncounted })
    }

    /// The keyring, lent to those who look whether an edit may be made.
    pub fn table(&self) -> &Table
        ensures { result.now ≡ self.now.keys }
    {
        &self.uncounted.state.table
    }

    /// The ownertrust.
    pub fn trusts(&self) -> &Trusts
        ensures { result.now ≡ self.now.trusts }
    {
        &self.uncounted.state.trusts
    }

    /// Counts the keys that the edits touched; each certification that is read is a tick.
    pub fn count<L: Ledger>(self, steps: &mut Steps<L>) -> Result<Engine, Mem>
        ensures state { IfOk result (λ engine. engine ≡ self) }
        ensures ticks { steps.new ≤ steps.old + (self.options.depth + 1) * cert_total self.keys }
    {
        self.uncounted.count(steps)
    }

    /// The same, whatever it reads on the way.
    pub fn into_engine(self) -> Result<Engine, Mem>
        ensures { IfOk result (λ engine. engine ≡ self) }
    {
        self.into_engine_by::<Brand>(Blank::new(1))
    }

    /// The same by a counter of its own.
    fn into_engine_by<L: Ledger>(self, blank: Blank) -> Result<Engine, Mem>
        requires own { (blank.name ≡ L.name) × (blank.parts ≡ L.parts) × (0 < L.parts) }
        ensures { IfOk result (λ engine. engine ≡ self) }
    {
        let mut steps = Steps::<L>::open(blank);
        self.count(&mut steps)
    }
}
