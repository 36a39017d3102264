//! The reply to a query of an earlier state.

ghost use Rattle.std.specs.Prelude.{◌≡◌, ◌≤◌, length, IfOk, IfErr};
ghost use Rattle.wot_types.specs.EarlierStates.{earlier_state};
ghost use Rattle.wot_types.specs.Store.{Store};
ghost use Rattle.wot_answer.specs.Answer.{IsEarlierQuery};
ghost use Rattle.wot_site.specs.Seen.{Honestly, IfHonest};
ghost use Rattle.wot_site.specs.Site.{Stays};
ghost use Rattle.wot_session.specs.Answering.{StopsTelling};
ghost use Rattle.wot_session.specs.Earlier.{RepliesIn, unread_state};
ghost use Rattle.wot_session.specs.SessionState.{Holds};
ghost use Rattle.wot_session.specs.Stop.{IsNoBadStore};

use crate::stop::Stop;
use std::alloc::Global;
use std::thread::Threads;
use wot_answer::{Reply, answer_in};
use wot_history::{HistoryError, state_at};
use wot_live::Engine;
use wot_site::{Side, Site};
use wot_store::{BadStore, Place};
use wot_types::{Mem, Query};
use wot_workers::{Gate, Workers};

/// Reads the state after the first `n` edits since the base from the shown side, and answers the query in it: the reply is to be told of the
/// engine beside it. Nothing is written.
pub fn read_earlier<R: Threads + Sync, S: Site, G: Gate + Sync>(
    workers: &Workers<'_, R, G>,
    alloc: Global,
    site: &mut S,
    place: &Place,
    n: u64,
    query: Query,
) -> Result<(Engine, Reply), Stop>
    requires query { IsEarlierQuery query }
    ensures reply { IfOk result (λ read. (s : Store) → Holds place.now (S.seen site.old) s → n ≤ length s.edits
        → IfHonest (S.seen site.old) (λ _. RepliesIn (earlier_state s n) query read.0 read.1)) }
    ensures sound { IfErr result (λ stop. (s : Store) → Holds place.now (S.seen site.old) s → n ≤ length s.edits
        → IfHonest (S.seen site.old) (λ _. IsNoBadStore stop)) }
    ensures stays { Honestly (S.seen site.old) (S.seen site.new) Stays }
    ensures cause { StopsTelling (S.faults site.old) (S.faults site.new) result }
{
    let engine = match state_at(
        workers,
        alloc,
        site,
        place.side,
        place.epoch,
        place.pages,
        n,
    ) {
        Ok(engine) => engine,
        Err(why) => return Err(unread(place.side, why)),
    };
    match answer_in(alloc, engine, query) {
        Ok(read) => Ok(read),
        Err(Mem::Memory) => Err(Stop::Memory),
    }
}

// How a session stops where an earlier state was not read from this side.
fn unread(side: Side, why: HistoryError) -> Stop
    ensures { result ≡ unread_state side why }
{
    match why {
        HistoryError::DiskFault => Stop::DiskFault,
        HistoryError::Short(at) => Stop::BadStore(BadStore::Short(side, at)),
        HistoryError::Seal(page) => Stop::BadStore(BadStore::Seal(page)),
        HistoryError::Spelling => Stop::BadStore(BadStore::Spelling),
        HistoryError::Lost(number) => Stop::BadStore(BadStore::Lost(number)),
        HistoryError::BadPayload(number) => Stop::BadStore(BadStore::BadPayload(number)),
        HistoryError::BadEdit(number) => Stop::BadStore(BadStore::BadEdit(number)),
        HistoryError::Memory => Stop::Memory,
    }
}
