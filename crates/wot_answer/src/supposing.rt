//! What an edit would change, and on whose ownertrust a letter hangs, as it is told. The engine that is handed back has the
//! same state.

ghost use Rattle.std.specs.Prelude.{◌≡◌, ◌-◌, ◌<◌, ◌≤◌, IfOk};
ghost use Rattle.wot_types.specs.StateAfter.{state_after};
ghost use Rattle.wot_types.specs.Payload.{IsProper};
ghost use Rattle.wot_types.specs.Supposing as supposed;
ghost use Rattle.wot_types.specs.Supposing.{IsSupposable};
ghost use Rattle.wot_types.specs.SupposingText.{changes_text, losses_text};

use std::alloc::Global;
use std::marker::Brand;
use std::sync::ledger::{Blank, Ledger};
use wot_lines::{changes, losses};
use wot_live::Engine;
use wot_suppose::{critical, suppose};
use wot_types::{Edit, KeyId, Mem, Steps};

/// What an edit would change.
pub fn changes_text(alloc: Global, engine: Engine, edit: Edit) -> Result<(Engine, Vec<u8>), Mem>
    requires proper { IsProper edit }
    requires supposable { IsSupposable edit }
    ensures engine { IfOk result (λ r. r.0 ≡ engine) }
    ensures text { IfOk result (λ r. r.1.items ≡ changes_text (supposed.changes engine (state_after engine edit))) }
{
    changes_text_by::<Brand>(alloc, engine, edit, Blank::new(1))
}

/// The same, over a counter of its own for the certifications that it reads.
fn changes_text_by<L: Ledger>(
    alloc: Global,
    engine: Engine,
    edit: Edit,
    blank: Blank,
) -> Result<(Engine, Vec<u8>), Mem>
    requires proper { IsProper edit }
    requires supposable { IsSupposable edit }
    requires own { (blank.name ≡ L.name) × (blank.parts ≡ L.parts) × (0 < L.parts) }
    ensures engine { IfOk result (λ r. r.0 ≡ engine) }
    ensures text { IfOk result (λ r. r.1.items ≡ changes_text (supposed.changes engine (state_after engine edit))) }
{
    let mut steps = Steps::<L>::open(blank);
    let (engine, found) = suppose(engine, edit, &mut steps)?;
    let text = changes(alloc, &found)?;
    Ok((engine, text))
}

/// On whose ownertrust the letter of the user ID at a place, counted from 1, hangs.
pub fn losses_text(
    alloc: Global,
    engine: Engine,
    id: KeyId,
    place: u32,
) -> Result<(Engine, Vec<u8>), Mem>
    requires from_one { 1 ≤ place }
    ensures engine { IfOk result (λ r. r.0 ≡ engine) }
    ensures text { IfOk result (λ r. r.1.items ≡ losses_text (supposed.critical engine id (place - 1))) }
{
    losses_text_by::<Brand>(alloc, engine, id, place, Blank::new(1))
}

/// The same, over a counter of its own for the certifications that it reads.
fn losses_text_by<L: Ledger>(
    alloc: Global,
    engine: Engine,
    id: KeyId,
    place: u32,
    blank: Blank,
) -> Result<(Engine, Vec<u8>), Mem>
    requires from_one { 1 ≤ place }
    requires own { (blank.name ≡ L.name) × (blank.parts ≡ L.parts) × (0 < L.parts) }
    ensures engine { IfOk result (λ r. r.0 ≡ engine) }
    ensures text { IfOk result (λ r. r.1.items ≡ losses_text (supposed.critical engine id (place - 1))) }
{
    let mut steps = Steps::<L>::open(blank);
    let (engine, found) = critical(engine, id, place - 1, &mut steps)?;
    let text = losses(alloc, &found)?;
    Ok((engine, text))
}
