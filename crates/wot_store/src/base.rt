//! The base of the shown side, and the journal behind it.

ghost use Rattle.std.specs.Prelude.{◌≡◌, ◌<◌, ◌≤◌, length, min, nat_lt, if◌then◌else◌, Some, None, IfOk, OnErr, IsErrOf};
ghost use Rattle.wot_site.specs.Disk.{disk_of};
ghost use Rattle.wot_site.specs.Seen.{Honestly, IfHonest};
ghost use Rattle.wot_site.specs.Site.{FailsOnlyBy, Stays};
ghost use Rattle.wot_site.specs.Gate.{most_side};
ghost use Rattle.wot_types.specs.WellFormedState.{IsWellFormedState};
ghost use Rattle.wot_types.specs.PagePlaces.{page_place};
ghost use Rattle.wot_store.specs.Base.{IsBaseOf, IsNoBase};
ghost use Rattle.wot_store.specs.Faults.{unread_pages};
ghost use Rattle.wot_store.specs.Opening.{ReadsBase, LacksBase, Resumes, FailsBy};

use crate::error::{BadStore, StoreError};
use crate::header::Header;
use crate::replay::replay;
use crate::rows::take_rows;
use std::alloc::Global;
use std::thread::Threads;
use wot_image::read_base;
use wot_live::{Engine, EngineDraft};
use wot_pages::{CONTENT, FIRST, PAGE, PagesError, read_pages};
use wot_site::{MOST, Side, Site};
use wot_types::Mem;
use wot_workers::{Gate, Workers};

/// The place behind so many pages, where it and the gate that stands there lie within a side of this size.
pub fn journal_start(pages: u64, size: u64) -> Option<u64>
    ensures { result ≡ (if nat_lt (page_place pages) (min size most_side) then Some (page_place pages) else None) }
{
    let most = size.min(MOST);
    if most <= FIRST || (most - FIRST - 1) / (PAGE as u64) < pages {
        return None;
    }
    Some(FIRST + PAGE as u64 * pages)
}

// What the store answers where the pages of a base were not read.
fn unread_pages(e: PagesError) -> StoreError
    ensures { result ≡ unread_pages e }
{
    match e {
        PagesError::DiskFault => StoreError::DiskFault,
        PagesError::Seal(page) => StoreError::Bad(BadStore::Seal(page)),
        PagesError::Memory => StoreError::Memory,
    }
}

// The draft of a base that has these contents, up to half a gigabyte, which are gone before its rows are checked.
fn take_base<R: Threads + Sync, G: Gate + Sync>(
    workers: &Workers<'_, R, G>,
    alloc: Global,
    contents: Vec<u8>,
) -> Result<EngineDraft, StoreError>
    ensures sound { IfOk result (λ draft. IsWellFormedState draft) }
    ensures base { IfOk result (λ draft. IsBaseOf contents.items draft) }
    ensures bad { (b : _) → IsErrOf result (StoreError.Bad b) → IsNoBase contents.items b }
    ensures no_disk { IsErrOf result StoreError.DiskFault → ⊥ }
{
    let found = read_base(alloc, &contents, CONTENT);
    drop(contents);
    match found {
        Ok(Some(image)) => take_rows(workers, alloc, image),
        Ok(None) => Err(StoreError::Bad(BadStore::Spelling)),
        Err(Mem::Memory) => Err(StoreError::Memory),
    }
}

// Reads the base of a side that has so many bytes, and answers the place behind it.
fn load_base<R: Threads + Sync, S: Site, G: Gate + Sync>(
    workers: &Workers<'_, R, G>,
    alloc: Global,
    site: &mut S,
    side: Side,
    header: Header,
    size: u64,
) -> Result<(EngineDraft, u64), StoreError>
    requires size { IfHonest (S.seen site.old) (λ s. size ≡ length (disk_of side s.disks).reads) }
    ensures sound { IfOk result (λ r. IsWellFormedState r.0) }
    ensures base { IfOk result (λ r. Honestly (S.seen site.old) (S.seen site.new) (ReadsBase side header r.0)) }
    ensures start { IfOk result (λ r. (r.1 ≡ page_place header.pages) × (r.1 < size) × (r.1 < most_side)) }
    ensures stays { OnErr result (Honestly (S.seen site.old) (S.seen site.new) Stays) }
    ensures bad { (b : _) → IsErrOf result (StoreError.Bad b) → Honestly (S.seen site.old) (S.seen site.new) (LacksBase side header b) }
    ensures cause { FailsOnlyBy StoreError.DiskFault (S.faults site.old) (S.faults site.new) result }
{
    let start = match journal_start(header.pages, size) {
        Some(start) => start,
        None => return Err(StoreError::Bad(BadStore::Short(side, FIRST))),
    };
    let contents = match read_pages(workers, alloc, site, side, header.epoch, header.pages) {
        Ok(contents) => contents,
        Err(e) => return Err(unread_pages(e)),
    };
    match take_base(workers, alloc, contents) {
        Ok(draft) => Ok((draft, start)),
        Err(e) => Err(e),
    }
}

/// What the base and the journal of a side led to.
#[derive(Drop)]
pub struct Resumed {
    pub engine: Engine,
    /// How many records the journal has.
    pub records: u64,
    /// Where it ends.
    pub end: u64,
}

/// Makes the edits of the records of a side that has so many bytes in the state of its base, and counts what they touch once,
/// after the last. The base's rows are taken where all stand.
pub fn resume<R: Threads + Sync, S: Site, G: Gate + Sync>(
    workers: &Workers<'_, R, G>,
    alloc: Global,
    site: &mut S,
    side: Side,
    header: Header,
    size: u64,
) -> Result<Resumed, StoreError>
    requires size { IfHonest (S.seen site.old) (λ s. size ≡ length (disk_of side s.disks).reads) }
    ensures sound { IfOk result (λ r. IsWellFormedState r.engine) }
    ensures resumed { IfOk result (λ r. Honestly (S.seen site.old) (S.seen site.new) (Resumes side header r.engine r.records r.end)) }
    ensures stays { OnErr result (Honestly (S.seen site.old) (S.seen site.new) Stays) }
    ensures bad { (b : _) → IsErrOf result (StoreError.Bad b) → Honestly (S.seen site.old) (S.seen site.new) (FailsBy side header b) }
    ensures cause { FailsOnlyBy StoreError.DiskFault (S.faults site.old) (S.faults site.new) result }
{
    let (base, start) = match load_base(workers, alloc, site, side, header, size) {
        Ok(loaded) => loaded,
        Err(e) => return Err(e),
    };
    let replayed = match replay(alloc, site, side, start, size, base) {
        Ok(replayed) => replayed,
        Err(e) => return Err(e),
    };
    match replayed.draft.into_engine() {
        Ok(engine) => Ok(Resumed {
            engine,
            records: replayed.records,
            end: replayed.end,
        }),
        Err(Mem::Memory) => Err(StoreError::Memory),
    }
}
