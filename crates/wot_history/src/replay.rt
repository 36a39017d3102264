//! The first records of a journal.

ghost use Rattle.std.specs.Prelude.{◌≡◌, ◌<◌, length, IfOk, IfErr};
ghost use Rattle.wot_types.specs.WellFormedState.{IsWellFormedState};
ghost use Rattle.wot_site.specs.Disk.{disk_of};
ghost use Rattle.wot_site.specs.Gate.{most_side};
ghost use Rattle.wot_site.specs.Seen.{Honestly, IfHonest};
ghost use Rattle.wot_site.specs.Site.{FailsOnlyBy};
ghost use Rattle.wot_history.specs.Reading.{Replays, StopsAt, unmade_record, unread_record};

use crate::error::HistoryError;
use std::alloc::Global;
use wot_journal::{ReplayError, Step, next};
use wot_live::EngineDraft;
use wot_site::{Side, Site};
use wot_store::{RecordError, take_record};

// What is answered where a record was not read.
fn unread_record(e: ReplayError) -> HistoryError
    ensures { result ≡ unread_record e }
{
    match e {
        ReplayError::DiskFault => HistoryError::DiskFault,
        ReplayError::Short(q) => HistoryError::Short(q),
        ReplayError::Memory => HistoryError::Memory,
    }
}

// What is answered where the record with that number makes no edit.
fn unmade_record(number: u64, e: RecordError) -> HistoryError
    ensures { result ≡ unmade_record number e }
{
    match e {
        RecordError::BadPayload => HistoryError::BadPayload(number),
        RecordError::BadEdit => HistoryError::BadEdit(number),
        RecordError::Memory => HistoryError::Memory,
    }
}

/// Makes the edits of so many records from a place on, and counts nothing.
pub fn replay_first<S: Site>(
    alloc: Global,
    site: &mut S,
    side: Side,
    start: u64,
    size: u64,
    base: EngineDraft,
    count: u64,
) -> Result<EngineDraft, HistoryError>
    requires within { start < size }
    requires bound { start < most_side }
    requires size { IfHonest (S.seen site.old) (λ s. size ≡ length (disk_of side s.disks).reads) }
    requires sound { IsWellFormedState base }
    ensures sound { IfOk result (λ draft. IsWellFormedState draft) }
    ensures replayed { IfOk result (λ draft. Honestly (S.seen site.old) (S.seen site.new) (Replays side start base count draft)) }
    ensures stops { IfErr result (λ e. Honestly (S.seen site.old) (S.seen site.new) (StopsAt side start base count e)) }
    ensures cause { FailsOnlyBy HistoryError.DiskFault (S.faults site.old) (S.faults site.new) result }
{
    let mut draft = base;
    let mut at = start;
    let mut done = 0u64;
    while done < count {
        match next(alloc, site, side, at, size) {
            Ok(Step::End) => return Err(HistoryError::Lost(done + 1)),
            Ok(Step::Payload(payload, after)) => {
                done += 1;
                draft = match take_record(alloc, draft, payload) {
                    Ok(made) => made,
                    Err(e) => return Err(unmade_record(done, e)),
                };
                at = after;
            }
            Err(e) => return Err(unread_record(e)),
        }
    }
    Ok(draft)
}
