//! The state of a base, its rows counted anew.

ghost use Rattle.std.specs.Prelude.{◌≡◌, ◌<◌, length, Option, IfOk, IfErr};
ghost use Rattle.wot_types.specs.Candidates.{RowMap};
ghost use Rattle.wot_types.specs.Image.{IsBase};
ghost use Rattle.wot_types.specs.PagePlaces.{content_size, page_place};
ghost use Rattle.wot_types.specs.Payload.{IsInRange};
ghost use Rattle.wot_types.specs.WellFormedState.{IsWellFormedState};
ghost use Rattle.wot_site.specs.Disk.{disk_of};
ghost use Rattle.wot_site.specs.Gate.{most_side};
ghost use Rattle.wot_site.specs.Seen.{Honestly, IfHonest};
ghost use Rattle.wot_site.specs.Site.{FailsOnlyBy};
ghost use Rattle.wot_image.specs.States.{image_state};
ghost use Rattle.wot_history.specs.Reading.{FindsBase, LacksBase, NoBase, unread_pages};

use crate::error::HistoryError;
use std::alloc::Global;
use std::thread::Threads;
use wot_check::rows_by;
use wot_image::{Image, read_base};
use wot_live::{Engine, EngineDraft};
use wot_pages::{CONTENT, FIRST, PagesError, read_pages};
use wot_site::{Side, Site};
use wot_store::journal_start;
use wot_table::LentState;
use wot_types::Mem;
use wot_workers::{Gate, Workers};

// What is answered where the pages of a base were not read.
fn unread_pages(e: PagesError) -> HistoryError
    ensures { result ≡ unread_pages e }
{
    match e {
        PagesError::DiskFault => HistoryError::DiskFault,
        PagesError::Seal(page) => HistoryError::Seal(page),
        PagesError::Memory => HistoryError::Memory,
    }
}

// The draft of what an image spells; the workers count its rows and its candidates.
fn count_rows<R: Threads + Sync, G: Gate + Sync>(
    workers: &Workers<'_, R, G>,
    alloc: Global,
    image: Image,
) -> Result<EngineDraft, Mem>
    requires ranges { IsInRange image.options }
    ensures { IfOk result (λ draft. draft ≡ image_state image) }
{
    let Image {
        table,
        trusts,
        date,
        options,
        rows,
    } = image;
    drop(rows);
    let state = LentState::of(&table, &trusts, date, &options);
    let rows = rows_by(workers, alloc, &state)?;
    let engine = Engine::from_parts_by(workers, table, trusts, date, options, rows)?;
    Ok(engine.into_draft())
}

// The draft of a base that has these contents, up to half a gigabyte, which are gone before its rows are counted.
fn take_base<R: Threads + Sync, G: Gate + Sync>(
    workers: &Workers<'_, R, G>,
    alloc: Global,
    contents: Vec<u8>,
) -> Result<EngineDraft, HistoryError>
    ensures sound { IfOk result (λ draft. IsWellFormedState draft) }
    ensures base { IfOk result (λ draft. (current : Option RowMap) × IsBase content_size contents.items draft current) }
    ensures none { IfErr result (NoBase contents.items) }
{
    let found = read_base(alloc, &contents, CONTENT);
    drop(contents);
    match found {
        Ok(Some(image)) => match count_rows(workers, alloc, image) {
            Ok(draft) => Ok(draft),
            Err(Mem::Memory) => Err(HistoryError::Memory),
        },
        Ok(None) => Err(HistoryError::Spelling),
        Err(Mem::Memory) => Err(HistoryError::Memory),
    }
}

/// Reads the base of a side that has so many bytes, and answers the place behind it. The rows that it has are not looked at.
pub fn load_base<R: Threads + Sync, S: Site, G: Gate + Sync>(
    workers: &Workers<'_, R, G>,
    alloc: Global,
    site: &mut S,
    side: Side,
    epoch: u64,
    pages: u64,
    size: u64,
) -> Result<(EngineDraft, u64), HistoryError>
    requires size { IfHonest (S.seen site.old) (λ s. size ≡ length (disk_of side s.disks).reads) }
    ensures sound { IfOk result (λ r. IsWellFormedState r.0) }
    ensures base { IfOk result (λ r. Honestly (S.seen site.old) (S.seen site.new) (FindsBase side epoch pages r.0)) }
    ensures start { IfOk result (λ r. (r.1 ≡ page_place pages) × (r.1 < size) × (r.1 < most_side)) }
    ensures lacks { IfErr result (λ e. Honestly (S.seen site.old) (S.seen site.new) (LacksBase side epoch pages e)) }
    ensures cause { FailsOnlyBy HistoryError.DiskFault (S.faults site.old) (S.faults site.new) result }
{
    let start = match journal_start(pages, size) {
        Some(start) => start,
        None => return Err(HistoryError::Short(FIRST)),
    };
    let contents = match read_pages(workers, alloc, site, side, epoch, pages) {
        Ok(contents) => contents,
        Err(e) => return Err(unread_pages(e)),
    };
    match take_base(workers, alloc, contents) {
        Ok(draft) => Ok((draft, start)),
        Err(e) => Err(e),
    }
}
