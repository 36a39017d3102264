//! What an accepted edit is answered with, once the engine has changed.

ghost use Rattle.std.specs.Prelude.{◌≡◌, IfOk};
ghost use Rattle.wot_types.specs.State.{State};
ghost use Rattle.wot_types.specs.Outcome.{edit_reply, sample_reply};
ghost use Rattle.wot_types.specs.StateAfter.{state_after};
ghost use Rattle.wot_answer.specs.EditReply.{reply_text};

use std::alloc::Global;
use wot_lines::{keys_line, ok_line};
use wot_live::Engine;
use wot_print::tally;
use wot_types::{Edit, Mem};

/// The reply to an edit, if it is accepted.
#[derive(Debug, Drop)]
pub enum EditReply {
    /// A text that doesn't hang on the state.
    Text(Vec<u8>),
    /// A tally of the letters after the edit, and the number of keys of a sample.
    Tally(u32),
}

impl EditReply {
    /// The reply to an edit that a command's words make.
    pub fn to(alloc: Global, edit: &Edit) -> Result<EditReply, Mem>
        ensures { IfOk result (λ reply. (s : State) → reply_text reply (state_after s edit.now) ≡ edit_reply s edit.now) }
    {
        match edit {
            Edit::Sample(_, count) => Ok(EditReply::Tally(*count)),
            _ => Ok(EditReply::Text(ok_line(alloc)?)),
        }
    }

    /// The text, where the engine is as the edit left it.
    pub fn into_text(self, alloc: Global, engine: &Engine) -> Result<Vec<u8>, Mem>
        ensures { IfOk result (λ text. text.items ≡ reply_text self engine.now) }
    {
        match self {
            EditReply::Text(text) => Ok(text),
            EditReply::Tally(count) => tally_text(alloc, engine, count),
        }
    }
}

/// The reply to a sample of so many keys.
fn tally_text(alloc: Global, engine: &Engine, count: u32) -> Result<Vec<u8>, Mem>
    ensures { IfOk result (λ text. text.items ≡ sample_reply engine.now count) }
{
    let mut text = tally(alloc, engine)?;
    let last_line = keys_line(alloc, count)?;
    text.extend_from_slice(last_line.as_slice())?;
    Ok(text)
}
