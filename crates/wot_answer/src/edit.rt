//! An edit: it is refused, or its record is built and it is made.

ghost use Rattle.std.specs.Prelude.{◌≡◌, ◌≤◌, length, true, false, None, IfOk, IsErrOf};
ghost use Rattle.wot_types.specs.Limits.{most_record};
ghost use Rattle.wot_types.specs.Outcome.{edit_outcome, is_past, refusal_of};
ghost use Rattle.wot_types.specs.StateAfter.{state_after};
ghost use Rattle.wot_types.specs.Payload.{IsWritten, IsProper, payload};
ghost use Rattle.wot_types.specs.Store.{Store};
ghost use Rattle.wot_answer.specs.Answer.{Ends};
ghost use Rattle.wot_answer.specs.EditReply.{reply_text};

use crate::answer::Answered;
use crate::edit_reply::EditReply;
use crate::reply::{Answer, Effect, Reply, refuse};
use std::alloc::Global;
use wot_commands::{change, refusal};
use wot_journal::{BuildError, Built, build_in_place};
use wot_live::Engine;
use wot_spelling::encode_with_length;
use wot_types::{Edit, Mem, Refusal};

/// Makes an edit that isn't refused, and replies so. What may refuse it is tried first, then its record is built for the
/// journal's end, and only then the engine changes. The reply is what is told of the changed engine.
pub fn make_edit(
    alloc: Global,
    engine: Engine,
    end: u64,
    edit: Edit,
    reply: EditReply,
) -> Result<Answered, Mem>
    requires proper { IsProper edit }
    ensures ends { IfOk result (λ answered. (s : Store) → engine ≡ s.state → end ≡ s.end → Ends answered s (edit_outcome (reply_text reply (state_after s.state edit)) s edit)) }
{
    match refusal(&engine, &edit) {
        Some(refusal) => refuse(alloc, engine, refusal),
        None => make_allowed(alloc, engine, end, edit, reply),
    }
}

/// Makes an edit that nothing but a full journal refuses.
fn make_allowed(
    alloc: Global,
    engine: Engine,
    end: u64,
    edit: Edit,
    reply: EditReply,
) -> Result<Answered, Mem>
    requires proper { IsProper edit }
    requires allowed { refusal_of engine edit ≡ None }
    ensures ends { IfOk result (λ answered. (s : Store) → engine ≡ s.state → end ≡ s.end → Ends answered s (edit_outcome (reply_text reply (state_after s.state edit)) s edit)) }
{
    match build_record(alloc, &edit, end) {
        Ok(built) => {
            let (engine, text) = make(alloc, engine, edit, reply)?;
            let answer = Answer::Told(Reply::Text(text), Effect::Append(built));
            Ok(Answered { engine, answer })
        }
        Err(BuildError::JournalFull) => refuse(alloc, engine, Refusal::JournalFull),
        Err(BuildError::Memory) => Err(Mem::Memory),
    }
}

/// The engine with an edit made, and what is told of it.
fn make(
    alloc: Global,
    engine: Engine,
    edit: Edit,
    reply: EditReply,
) -> Result<(Engine, Vec<u8>), Mem>
    requires proper { IsProper edit }
    requires allowed { refusal_of engine edit ≡ None }
    ensures engine { IfOk result (λ made. made.0 ≡ state_after engine edit) }
    ensures text { IfOk result (λ made. made.1.items ≡ reply_text reply (state_after engine edit)) }
{
    let engine = change(engine, edit)?;
    let text = reply.into_text(alloc, &engine)?;
    Ok((engine, text))
}

/// The record of an edit, for the journal's end. It is built in the memory of the payload, so that this stands in memory once.
fn build_record(alloc: Global, edit: &Edit, end: u64) -> Result<Built, BuildError>
    requires proper { IsProper edit.now }
    requires room { length (payload edit.now) ≤ most_record }
    ensures built { IfOk result (λ built. (built.end ≡ end) × IsWritten built.payload edit.now × (is_past end edit.now ≡ false)) }
    ensures full { IsErrOf result BuildError.JournalFull → is_past end edit.now ≡ true }
{
    match encode_with_length(alloc, edit) {
        Ok(spelled) => build_in_place(spelled, end),
        Err(Mem::Memory) => Err(BuildError::Memory),
    }
}
