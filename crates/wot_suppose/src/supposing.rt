//! What an edit would change.

ghost use Rattle.std.specs.Prelude.{◌≡◌, IfOk};
ghost use Rattle.wot_types.specs.StateAfter.{state_after};
ghost use Rattle.wot_types.specs.Payload.{IsProper};
ghost use Rattle.wot_types.specs.Supposing.{IsSupposable, changes};

use crate::changes::changes_since;
use crate::letters::all_letters;
use crate::trial::{Trial, trial_of};
use std::sync::ledger::Ledger;
use wot_live::Engine;
use wot_types::{Changes, Edit, Mem, Steps};

/// The user IDs whose letter an edit of ownertrust, of the date or of the options would change, in rising order of key ID and place. The engine
/// that is handed back has the same state; it is gone after want of memory.
pub fn suppose<L: Ledger>(
    engine: Engine,
    edit: Edit,
    steps: &mut Steps<L>,
) -> Result<(Engine, Changes), Mem>
    requires proper { IsProper edit }
    requires supposable { IsSupposable edit }
    ensures state { IfOk result (λ r. r.0 ≡ engine) }
    ensures changes { IfOk result (λ r. r.1 ≡ changes engine (state_after engine edit)) }
{
    let alloc = engine.table().alloc();
    let former = all_letters(alloc, &engine)?;
    let Trial { edit, back } = trial_of(&engine, edit)?;
    let supposed = engine.make(edit, steps)?;
    let changes = changes_since(alloc, &supposed, &former)?;
    let engine = supposed.make(back, steps)?;
    Ok((engine, changes))
}
