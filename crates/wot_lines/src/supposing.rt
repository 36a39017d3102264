//! The replies that tell what an edit would change, and on whose ownertrust a letter hangs.

ghost use Rattle.std.specs.Prelude.{◌≡◌, ◌++◌, IfOk, OnOk};
ghost use Rattle.std.specs.List.{flat_map};
ghost use Rattle.wot_types.specs.SupposingText.{change_line, changes_text, loss_line, losses_text};

use crate::answers::end_with_count;
use crate::fields::{push_count_field, push_field, push_fpr_field, push_key_id_field};
use crate::names::letter_text;
use std::alloc::Global;
use wot_fields::{Printed, Sink};
use wot_types::{Change, Changes, Loss, Losses, Mem};

/// A line for each user ID whose letter would be another, and `ok changes N`.
pub fn changes(alloc: Global, changes: &Changes) -> Result<Vec<u8>, Mem>
    ensures { IfOk result (λ text. text.items ≡ changes_text changes.now) }
{
    let mut text = Printed::new(alloc);
    push_changes(&mut text, changes.as_slice())?;
    end_with_count(text, b"ok changes ", changes.len() as u64)
}

fn push_changes(text: &mut Printed, changes: &[Change]) -> Result<(), Mem>
    ensures { OnOk result (text.new ≡ text.old ++ flat_map change_line changes.now) }
{
    for change in changes {
        push_change(text, *change)?;
    }
    Ok(())
}

/// `change:KEYID:PLACE:OLD:NEW:`, where the place counts from 1.
fn push_change(text: &mut Printed, change: Change) -> Result<(), Mem>
    ensures { OnOk result (text.new ≡ text.old ++ change_line change) }
{
    text.push_bytes(b"change:")?;
    push_key_id_field(text, change.key)?;
    push_count_field(text, u64::from(change.user) + 1)?;
    push_field(text, letter_text(change.old))?;
    push_field(text, letter_text(change.new))?;
    text.push(b'\n')?;
    Ok(())
}

/// A line for each entry without whose ownertrust a letter would be further back, and `ok critical N`.
pub fn losses(alloc: Global, losses: &Losses) -> Result<Vec<u8>, Mem>
    ensures { IfOk result (λ text. text.items ≡ losses_text losses.now) }
{
    let mut text = Printed::new(alloc);
    push_losses(&mut text, losses.as_slice())?;
    end_with_count(text, b"ok critical ", losses.len() as u64)
}

fn push_losses(text: &mut Printed, losses: &[Loss]) -> Result<(), Mem>
    ensures { OnOk result (text.new ≡ text.old ++ flat_map loss_line losses.now) }
{
    for loss in losses {
        push_loss(text, loss)?;
    }
    Ok(())
}

/// `critical:FINGERPRINT:LETTER:`
fn push_loss(text: &mut Printed, loss: &Loss) -> Result<(), Mem>
    ensures { OnOk result (text.new ≡ text.old ++ loss_line loss.now) }
{
    text.push_bytes(b"critical:")?;
    push_fpr_field(text, &loss.fpr)?;
    push_field(text, letter_text(loss.letter))?;
    text.push(b'\n')?;
    Ok(())
}
