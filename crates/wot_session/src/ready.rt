//! What is told, made ready before anything is done: all memory is taken here.

ghost use Rattle.std.specs.Prelude.{◌≡◌, ◌++◌, None, IfOk};
ghost use Rattle.wot_types.specs.Outcome.{ok_line};
ghost use Rattle.wot_types.specs.Payload.{IsInRange};
ghost use Rattle.wot_types.specs.Printing.{list_text};
ghost use Rattle.wot_answer.specs.Answer.{reply_of};
ghost use Rattle.wot_session.specs.Ready.{text_of};

use std::alloc::Global;
use std::thread::Threads;
use wot_answer::Reply;
use wot_check::rows_by;
use wot_lines::ok_line;
use wot_live::Engine;
use wot_print::{Printout, tally_by};
use wot_table::LentState;
use wot_types::Mem;
use wot_workers::{Gate, Workers};

/// What is to be told, with all the memory that it takes.
#[derive(Drop)]
pub enum Ready<'a> {
    Text(Vec<u8>),
    /// A listing, which is told while it is printed, and the last line of a reply.
    Printout(Printout<'a>),
}

/// Makes ready what a reply tells. Where it asks for rows counted anew the workers count them, each of whom calls the gate first, and as
/// many then count the letters.
pub fn make_ready<'a, R: Threads + Sync, G: Gate + Sync>(
    workers: &Workers<'_, R, G>,
    alloc: Global,
    engine: &'a Engine,
    reply: Reply,
) -> Result<Ready<'a>, Mem>
    ensures { IfOk result (λ ready. text_of ready ≡ reply_of reply engine.now) }
{
    match reply {
        Reply::Text(text) | Reply::Refused(text) => Ok(Ready::Text(text)),
        Reply::List => listing_of(alloc, engine, false),
        Reply::Sigs => listing_of(alloc, engine, true),
        Reply::Tally => {
            let text = recounted_tally(workers, alloc, &engine.lent())?;
            Ok(Ready::Text(text))
        }
    }
}

// The listing of all keys, with or without certifications.
fn listing_of<'a>(alloc: Global, engine: &'a Engine, sigs: bool) -> Result<Ready<'a>, Mem>
    ensures { IfOk result (λ ready. text_of ready ≡ list_text engine.now None sigs ++ ok_line) }
{
    let printout = Printout::of(alloc, engine, sigs)?;
    Ok(Ready::Printout(printout))
}

// The reply to `check`: the tally by rows that are counted anew. What the engine kept is not at hand here.
fn recounted_tally<R: Threads + Sync, G: Gate + Sync>(
    workers: &Workers<'_, R, G>,
    alloc: Global,
    state: &LentState<'_>,
) -> Result<Vec<u8>, Mem>
    requires ranges { IsInRange state.now.options }
    ensures { IfOk result (λ text. text.items ≡ reply_of Reply.Tally state.now) }
{
    let rows = rows_by(workers, alloc, state)?;
    let mut text = tally_by(workers, alloc, state, &rows)?;
    let last_line = ok_line(alloc)?;
    text.extend_from_slice(last_line.as_slice())?;
    Ok(text)
}
