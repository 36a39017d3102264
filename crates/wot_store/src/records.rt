//! The edit of a record.

ghost use Rattle.std.specs.Prelude.{◌≡◌, ℕ, List, is_some, Some, IfOk, IfErr};
ghost use Rattle.wot_types.specs.Outcome.{refusal_of};
ghost use Rattle.wot_types.specs.Payload.{IsPayload, IsProper};
ghost use Rattle.wot_types.specs.State.{State};
ghost use Rattle.wot_store.specs.Journal.{Makes, MakesNone, after_edit};

use std::alloc::Global;
use thiserror::Error;
use wot_commands::{edited_draft, refusal_over};
use wot_live::EngineDraft;
use wot_spelling::decode;
use wot_types::{Edit, Mem, Text};

/// Why a record makes no edit.
#[derive(Clone, Copy, Debug, PartialEq, Eq, Drop, Error)]
pub enum RecordError {
    /// Its payload spells none.
    #[error("no edit")]
    BadPayload,
    /// It spells one that is refused.
    #[error("a refused edit")]
    BadEdit,
    #[error("out of memory")]
    Memory,
}

// Reads the edit of a payload, which has up to 536,870,912 bytes and is gone before the edit is made.
fn read_edit(alloc: Global, payload: Text) -> Result<Edit, RecordError>
    ensures spells { IfOk result (λ edit. IsPayload payload edit) }
    ensures none { (s : State) → IfErr result (MakesNone s payload) }
{
    match decode(alloc, payload.as_bytes()) {
        Ok(Some(edit)) => Ok(edit),
        Ok(None) => Err(RecordError::BadPayload),
        Err(Mem::Memory) => Err(RecordError::Memory),
    }
}

// Whether an edit is refused in the state of this draft.
fn is_refused(draft: &EngineDraft, edit: &Edit) -> bool
    requires proper { IsProper edit.now }
    ensures { result ≡ is_some (refusal_of draft.now edit.now) }
{
    refusal_over(draft.table(), draft.trusts(), edit).is_some()
}

// Makes an edit, if it isn't refused.
fn make(draft: EngineDraft, edit: Edit) -> Result<EngineDraft, RecordError>
    requires proper { IsProper edit }
    ensures made { IfOk result (λ after. after_edit draft edit ≡ Some after) }
    ensures none { (payload : List ℕ) → IsPayload payload edit → IfErr result (MakesNone draft payload) }
{
    if is_refused(&draft, &edit) {
        return Err(RecordError::BadEdit);
    }
    match edited_draft(draft, edit) {
        Ok(after) => Ok(after),
        Err(Mem::Memory) => Err(RecordError::Memory),
    }
}

/// Makes the edit that the payload of a record spells, for several that are counted once.
pub fn take_record(
    alloc: Global,
    draft: EngineDraft,
    payload: Text,
) -> Result<EngineDraft, RecordError>
    ensures made { IfOk result (λ after. Makes draft payload after) }
    ensures none { IfErr result (MakesNone draft payload) }
{
    match read_edit(alloc, payload) {
        Ok(edit) => make(draft, edit),
        Err(e) => Err(e),
    }
}
