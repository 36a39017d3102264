//! A run over its opened store: a session over the input, or one command.

ghost use Rattle.std.specs.Prelude.{ℕ, List, [], IfOk, IfErr};
ghost use Rattle.wot_types.specs.Commands.{begun_command};
ghost use Rattle.wot_types.specs.Store.{Store};
ghost use Rattle.wot_answer.specs.Begun.{IsSingle};
ghost use Rattle.wot_answer.specs.Block.{IsBlockOf};
ghost use Rattle.wot_site.specs.Seen.{Honestly};
ghost use Rattle.wot_session.specs.SessionState.{Holds, IsOpened};
ghost use Rattle.wot_session.specs.Answering.{HasStopCause};
ghost use Rattle.wot_session.specs.Words.{WordsEnded, WordsStopped};

use crate::running::run_session;
use crate::session::Session;
use crate::stop::Stop;
use std::alloc::Global;
use std::mem;
use std::thread::Threads;
use wot_answer::{Begun, Block, Division, Single, read_command};
use wot_site::Site;
use wot_store::Opened;
use wot_types::{Mem, Words};
use wot_workers::{Gate, Workers};

/// Runs a session where there are no words, and else the one command that they are. It answers whether some command
/// was refused.
pub fn run_opened<R: Threads + Sync, S: Site, G: Gate + Sync>(
    workers: &Workers<'_, R, G>,
    alloc: Global,
    words: &Words,
    opened: Opened,
    site: &mut S,
    most: u64,
) -> Result<bool, Stop>
    requires opened { (store : Store) × IsOpened opened store × Holds opened.place (S.seen site.old) store }
    ensures ended { IfOk result (λ refused. (store : Store) → IsOpened opened store → Holds opened.place (S.seen site.old) store
        → Honestly (S.seen site.old) (S.seen site.new) (WordsEnded store words.now most refused)) }
    ensures stopped { IfErr result (λ stop. (store : Store) → IsOpened opened store → Holds opened.place (S.seen site.old) store
        → Honestly (S.seen site.old) (S.seen site.new) (WordsStopped store words.now most stop)) }
    ensures cause { HasStopCause (S.faults site.old) (S.faults site.new) result }
{
    match read_command(alloc, true, words) {
        Ok(Begun::Nothing) => run_lines(workers, alloc, opened, site, most),
        Ok(Begun::Block(block)) => run_block(workers, alloc, block, opened, site, most),
        Ok(Begun::Single(command)) => run_command(workers, alloc, command, opened, site),
        Err(Mem::Memory) => Err(Stop::Memory),
    }
}

/// Runs one command that takes no block: the input is not touched, whatever its bound.
fn run_command<R: Threads + Sync, S: Site, G: Gate + Sync>(
    workers: &Workers<'_, R, G>,
    alloc: Global,
    command: Single,
    opened: Opened,
    site: &mut S,
) -> Result<bool, Stop>
    requires command { (words : List (List ℕ)) × IsSingle command words }
    requires opened { (store : Store) × IsOpened opened store × Holds opened.place (S.seen site.old) store }
    ensures ended { IfOk result (λ refused. (store : Store) → IsOpened opened store → Holds opened.place (S.seen site.old) store
        → (words : List (List ℕ)) → IsSingle command words
        → (most : ℕ) → Honestly (S.seen site.old) (S.seen site.new) (WordsEnded store words most refused)) }
    ensures stopped { IfErr result (λ stop. (store : Store) → IsOpened opened store → Holds opened.place (S.seen site.old) store
        → (words : List (List ℕ)) → IsSingle command words
        → (most : ℕ) → Honestly (S.seen site.old) (S.seen site.new) (WordsStopped store words most stop)) }
    ensures cause { HasStopCause (S.faults site.old) (S.faults site.new) result }
{
    let mut session = Session::new(alloc, opened, Division::Between);
    let performed = session.perform_command(workers, site, command);
    let refused = session.is_refused();
    leave(session);
    match performed {
        Ok(()) => Ok(refused),
        Err(stop) => Err(stop),
    }
}

/// Runs one command that takes the input as its block.
fn run_block<R: Threads + Sync, S: Site, G: Gate + Sync>(
    workers: &Workers<'_, R, G>,
    alloc: Global,
    block: Block,
    opened: Opened,
    site: &mut S,
    most: u64,
) -> Result<bool, Stop>
    requires block { (words : List (List ℕ)) × IsBlockOf block (begun_command words) }
    requires opened { (store : Store) × IsOpened opened store × Holds opened.place (S.seen site.old) store }
    ensures ended { IfOk result (λ refused. (store : Store) → IsOpened opened store → Holds opened.place (S.seen site.old) store
        → (words : List (List ℕ)) → IsBlockOf block (begun_command words)
        → Honestly (S.seen site.old) (S.seen site.new) (WordsEnded store words most refused)) }
    ensures stopped { IfErr result (λ stop. (store : Store) → IsOpened opened store → Holds opened.place (S.seen site.old) store
        → (words : List (List ℕ)) → IsBlockOf block (begun_command words)
        → Honestly (S.seen site.old) (S.seen site.new) (WordsStopped store words most stop)) }
    ensures cause { HasStopCause (S.faults site.old) (S.faults site.new) result }
{
    let mut session = Session::new(alloc, opened, Division::Within(block));
    let ended = run_session(workers, &mut session, site, most);
    leave(session);
    ended
}

/// Runs a session over the input. The index that its edits use is made first, so that none of them has to.
fn run_lines<R: Threads + Sync, S: Site, G: Gate + Sync>(
    workers: &Workers<'_, R, G>,
    alloc: Global,
    opened: Opened,
    site: &mut S,
    most: u64,
) -> Result<bool, Stop>
    requires opened { (store : Store) × IsOpened opened store × Holds opened.place (S.seen site.old) store }
    ensures ended { IfOk result (λ refused. (store : Store) → IsOpened opened store → Holds opened.place (S.seen site.old) store
        → Honestly (S.seen site.old) (S.seen site.new) (WordsEnded store [] most refused)) }
    ensures stopped { IfErr result (λ stop. (store : Store) → IsOpened opened store → Holds opened.place (S.seen site.old) store
        → Honestly (S.seen site.old) (S.seen site.new) (WordsStopped store [] most stop)) }
    ensures cause { HasStopCause (S.faults site.old) (S.faults site.new) result }
{
    let indexed = match opened.indexed(workers) {
        Ok(indexed) => indexed,
        Err(Mem::Memory) => return Err(Stop::Memory),
    };
    let mut session = Session::new(alloc, indexed, Division::Between);
    let ended = run_session(workers, &mut session, site, most);
    leave(session);
    ended
}

/// Leaves the memory of a session that is over to the system, which takes it back at the end of the process: to free it
/// key by key would take a good part of the time of an import.
fn leave(session: Session) {
    mem::forget(session);
}
