//! The state after so many edits since the base.

ghost use Rattle.std.specs.Prelude.{◌≡◌, IfOk, IfErr};
ghost use Rattle.wot_types.specs.Store.{Store};
ghost use Rattle.wot_types.specs.WellFormedState.{IsWellFormedState};
ghost use Rattle.wot_site.specs.Seen.{Honestly, IfHonest};
ghost use Rattle.wot_site.specs.Site.{FailsOnlyBy, Stays};
ghost use Rattle.wot_store.specs.declared.place.Place.{Place};
ghost use Rattle.wot_store.specs.Shows.{IsStored};
ghost use Rattle.wot_history.specs.History.{IsAsked, IsEarlier};
ghost use Rattle.wot_history.specs.Reading.{FindsState, LacksIt};

use crate::base::load_base;
use crate::error::HistoryError;
use crate::replay::replay_first;
use std::alloc::Global;
use std::thread::Threads;
use wot_live::Engine;
use wot_site::{Failed, Side, Site};
use wot_types::Mem;
use wot_workers::{Gate, Workers};

/// Reads the shown side again, which has this epoch and a base of so many pages, and answers the engine of the state after the first
/// `count` edits since that base. The workers check the seals, and count the rows of the base, each of whom calls the gate first.
pub fn state_at<R: Threads + Sync, S: Site, G: Gate + Sync>(
    workers: &Workers<'_, R, G>,
    alloc: Global,
    site: &mut S,
    side: Side,
    epoch: u64,
    pages: u64,
    count: u64,
) -> Result<Engine, HistoryError>
    ensures sound { IfOk result (λ engine. IsWellFormedState engine) }
    // Where the store is open there, and so many edits were made since its base.
    ensures earlier { (place : Place) (shown : Store) → IsAsked place shown side epoch pages count
        → IfHonest (S.seen site.old) (λ s. IsStored place shown s.disks → IsEarlier shown count result) }
    // Whatever the side holds.
    ensures found { IfOk result (λ engine. Honestly (S.seen site.old) (S.seen site.new) (FindsState side epoch pages count engine)) }
    ensures lacks { IfErr result (λ e. Honestly (S.seen site.old) (S.seen site.new) (LacksIt side epoch pages count e)) }
    ensures stays { Honestly (S.seen site.old) (S.seen site.new) Stays }
    ensures cause { FailsOnlyBy HistoryError.DiskFault (S.faults site.old) (S.faults site.new) result }
{
    let size = match site.size(side) {
        Ok(size) => size,
        Err(Failed) => return Err(HistoryError::DiskFault),
    };
    let (base, start) = match load_base(workers, alloc, site, side, epoch, pages, size) {
        Ok(loaded) => loaded,
        Err(e) => return Err(e),
    };
    let draft = match replay_first(alloc, site, side, start, size, base, count) {
        Ok(draft) => draft,
        Err(e) => return Err(e),
    };
    match draft.into_engine() {
        Ok(engine) => Ok(engine),
        Err(Mem::Memory) => Err(HistoryError::Memory),
    }
}
