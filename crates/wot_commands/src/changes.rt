//! The state after an edit.

ghost use Rattle.std.specs.Prelude.{◌≡◌, ◌<◌, None, IfOk};
ghost use Rattle.wot_types.specs.Outcome.{refusal_of};
ghost use Rattle.wot_types.specs.StateAfter.{state_after};
ghost use Rattle.wot_types.specs.Payload.{IsProper};
ghost use Rattle.wot_types.specs.Touched.{IsWithinTouched};
ghost use Rattle.wot_types.specs.Named.{named_by};

use crate::plain_edit::plain_edit;
use std::marker::Brand;
use std::sync::ledger::{Blank, Ledger};
use wot_live::{Engine, EngineDraft};
use wot_types::{Edit, Mem, Steps};

/// Makes an edit that isn't refused, whatever it reads on the way. At Memory the engine is gone.
pub fn change(engine: Engine, edit: Edit) -> Result<Engine, Mem>
    requires proper { IsProper edit }
    requires allowed { refusal_of engine edit ≡ None }
    ensures { IfOk result (λ new. new ≡ state_after engine edit) }
{
    change_by::<Brand>(engine, edit, Blank::new(1))
}

/// The same by a counter of its own.
fn change_by<L: Ledger>(engine: Engine, edit: Edit, blank: Blank) -> Result<Engine, Mem>
    requires own { (blank.name ≡ L.name) × (blank.parts ≡ L.parts) × (0 < L.parts) }
    requires proper { IsProper edit }
    requires allowed { refusal_of engine edit ≡ None }
    ensures { IfOk result (λ new. new ≡ state_after engine edit) }
{
    let mut steps = Steps::<L>::open(blank);
    apply(engine, edit, &mut steps)
}

/// Makes an edit that isn't refused; each certification that is read is a tick. At Memory the engine is gone.
pub fn apply<L: Ledger>(engine: Engine, edit: Edit, steps: &mut Steps<L>) -> Result<Engine, Mem>
    requires proper { IsProper edit }
    requires allowed { refusal_of engine edit ≡ None }
    ensures state { IfOk result (λ new. new ≡ state_after engine edit) }
    ensures ticks { IsWithinTouched (named_by engine edit) engine (state_after engine edit) steps.old steps.new }
{
    let plain = plain_edit(engine.table().alloc(), engine.trusts(), edit)?;
    engine.make(plain, steps)
}

/// Makes an edit that isn't refused, for several that are counted once. At Memory the draft is gone.
pub fn edited_draft(draft: EngineDraft, edit: Edit) -> Result<EngineDraft, Mem>
    requires proper { IsProper edit }
    requires allowed { refusal_of draft edit ≡ None }
    ensures { IfOk result (λ new. new ≡ state_after draft edit) }
{
    let plain = plain_edit(draft.table().alloc(), draft.trusts(), edit)?;
    draft.make(plain)
}
