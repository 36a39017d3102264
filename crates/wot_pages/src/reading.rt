//! Reading pages, and checking their seals.

ghost use Rattle.std.specs.Prelude.{◌≡◌, ◌*◌, ◌<◌, ◌≤◌, length, IfOk, OnErr, IsErrOf};
ghost use Rattle.wot_site.specs.Disk.{disk_of};
ghost use Rattle.wot_site.specs.Seen.{Honestly, IfHonest};
ghost use Rattle.wot_site.specs.Site.{FailsOnlyBy, Stays};
ghost use Rattle.wot_types.specs.PagePlaces.{content_size, most_side, page_place};
ghost use Rattle.wot_pages.specs.Reading.{ReadsPages, FindsFault};

use crate::checking::check_seals;
use crate::sealed::read_sealed;
use std::alloc::{AllocError, Global};
use std::thread::Threads;
use thiserror::Error;
use wot_site::{Side, Site};
use wot_workers::{Gate, Workers};

/// Why pages were not read.
#[derive(Clone, Copy, Debug, PartialEq, Eq, Drop, Error)]
pub enum PagesError {
    #[error("disk fault")]
    DiskFault,
    /// The seal of the page with that number, from 0, differs; it is the first.
    #[error("the seal of page {0} differs")]
    Seal(u64),
    #[error("out of memory")]
    Memory,
}

/// Reads so many pages of a side, and answers their contents in order. One thread reads; the workers check the seals
/// of what was read, each those of a piece of the pages.
pub fn read_pages<R: Threads + Sync, S: Site, G: Gate + Sync>(
    workers: &Workers<'_, R, G>,
    alloc: Global,
    site: &mut S,
    side: Side,
    epoch: u64,
    pages: u64,
) -> Result<Vec<u8>, PagesError>
    requires fits { page_place pages ≤ most_side }
    requires within { IfHonest (S.seen site.old) (λ s. page_place pages ≤ length (disk_of side s.disks).reads) }
    ensures long { IfOk result (λ contents. length contents.items ≡ content_size * pages) }
    ensures read { IfOk result (λ contents. Honestly (S.seen site.old) (S.seen site.new) (ReadsPages side epoch pages contents.items)) }
    ensures stays { OnErr result (Honestly (S.seen site.old) (S.seen site.new) Stays) }
    ensures seal { (k : _) → IsErrOf result (PagesError.Seal k) → Honestly (S.seen site.old) (S.seen site.new) (FindsFault side epoch pages k) }
    ensures there { (k : _) → IsErrOf result (PagesError.Seal k) → k < pages }
    ensures cause { FailsOnlyBy PagesError.DiskFault (S.faults site.old) (S.faults site.new) result }
{
    let read = match read_sealed(alloc, site, side, pages) {
        Ok(read) => read,
        Err(e) => return Err(e),
    };
    let count = read.seals.len() as u64;
    match check_seals(workers, alloc, epoch, &read.contents, &read.seals) {
        Ok(Some(k)) => Err(PagesError::Seal(k)),
        Ok(None) => {
            if count < pages {
                return Err(PagesError::Seal(count));
            }
            Ok(read.contents)
        }
        Err(AllocError) => Err(PagesError::Memory),
    }
}
