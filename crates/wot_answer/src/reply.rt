//! Replies: what is told, and what is done to the store before it is told.

ghost use Rattle.std.specs.Prelude.{◌≡◌, IfOk};
ghost use Rattle.wot_types.specs.Outcome.{refuse, skip};
ghost use Rattle.wot_answer.specs.Answer.{IsReply, is_err};

use crate::answer::Answered;
use std::alloc::Global;
use wot_journal::Built;
use wot_lines::refused;
use wot_live::Engine;
use wot_types::{Mem, Query, Refusal};

/// What is done to the store before a reply is told.
#[derive(Debug, Drop)]
pub enum Effect {
    Nothing,
    Append(Built),
    /// The store moves to its other side.
    Compact,
}

/// What is told.
#[derive(Debug, Drop)]
pub enum Reply {
    /// The whole reply: nothing for a line with no command.
    Text(Vec<u8>),
    /// A refused command's `err` line.
    Refused(Vec<u8>),
    /// The listing of all keys, and the last line of a reply.
    List,
    /// The same with the certifications.
    Sigs,
    /// The tally of the letters by rows that are counted anew, and the last line of a reply.
    Tally,
}

impl Reply {
    /// Whether it is an `err` line.
    pub fn is_err(&self) -> bool
        ensures { result ≡ is_err self.now }
    {
        matches!(self, Reply::Refused(_))
    }
}

/// What a command is answered with.
#[derive(Debug, Drop)]
pub enum Answer {
    /// A reply of the engine's state, and what is done to the store before it is told.
    Told(Reply, Effect),
    /// A query of the state after the first so many edits since the base, which is read from the store first. Nothing is done to the store.
    Earlier(u64, Query),
}

/// A refused command's `err` line; the engine stays.
pub fn refuse(alloc: Global, engine: Engine, refusal: Refusal) -> Result<Answered, Mem>
    ensures reply { IfOk result (λ answered. IsReply answered engine (refuse refusal)) }
{
    let line = refused(alloc, &refusal)?;
    Ok(Answered {
        engine,
        answer: Answer::Told(Reply::Refused(line), Effect::Nothing),
    })
}

/// Nothing is told, and nothing is done.
pub fn say_nothing(alloc: Global, engine: Engine) -> Answered
    ensures reply { IsReply result engine skip }
{
    Answered {
        engine,
        answer: Answer::Told(Reply::Text(Vec::new(alloc)), Effect::Nothing),
    }
}
