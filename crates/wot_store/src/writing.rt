//! Writing a side.

ghost use Rattle.std.specs.Prelude.{◌≡◌, ◌^◌, ◌<◌, length, IfOk, OnOk};
ghost use Rattle.wot_site.specs.Disk.{disk_of};
ghost use Rattle.wot_site.specs.Seen.{Honestly, IfHonest};
ghost use Rattle.wot_site.specs.Site.{HasCause, DiskRose};
ghost use Rattle.wot_journal.specs.Commit.{IsEnd, MakesCalls};
ghost use Rattle.wot_site.specs.Gate.{most_side};
ghost use Rattle.wot_types.specs.PagePlaces.{page_place, pages_needed};
ghost use Rattle.wot_store.specs.Base.{header_tail};
ghost use Rattle.wot_store.specs.Writing.{Becomes, IsKnown, ClosingGate, Filling, OpeningGate, Writing, closed_bytes, with_base, with_open_gate, base_bytes, closing_calls, filling_calls, calls_for};

use crate::header::MAGIC;
use byteorder::{BigEndian, ByteOrder};
use wot_journal::put;
use wot_pages::{FIRST, PAGE, pages_needed, write_pages};
use wot_site::{DiskFault, Failed, OPEN, Side, Site};

// The byte of a closed gate that is written.
const CLOSED: u8 = 0;

// The header behind its gate.
fn tail(epoch: u64, pages: u64) -> [u8; 23]
    ensures { result ≡ header_tail epoch pages }
{
    let mut tail = [0u8; 23];
    tail[..7].copy_from_slice(&MAGIC);
    BigEndian::write_u64(&mut tail[7..], epoch);
    BigEndian::write_u64(&mut tail[15..], pages);
    tail
}

// Closes the gate of a side where it isn't closed yet.
fn close_side<S: Site>(site: &mut S, side: Side, is_closed: bool) -> Result<(), DiskFault>
    requires known { IfHonest (S.seen site.old) (λ s. IsKnown is_closed (disk_of side s.disks)) }
    ensures closed { OnOk result (Honestly (S.seen site.old) (S.seen site.new) (Becomes side (closed_bytes is_closed))) }
    ensures any_moment { Honestly (S.seen site.old) (S.seen site.new) (ClosingGate side) }
    ensures calls { OnOk result (Honestly (S.seen site.old) (S.seen site.new) (MakesCalls (closing_calls is_closed))) }
    ensures cause { HasCause DiskRose (S.faults site.old) (S.faults site.new) result }
{
    if is_closed {
        return Ok(());
    }
    put(site, side, 0, &[CLOSED])
}

// Writes the header, the pages of an image and the first gate of a side whose gate is closed; it answers how many pages.
fn fill_side<S: Site>(site: &mut S, side: Side, epoch: u64, image: &[u8]) -> Result<u64, DiskFault>
    requires room { page_place (pages_needed (length image.now)) < most_side }
    requires closed { IfHonest (S.seen site.old) (λ s. IsEnd 0 (disk_of side s.disks)) }
    ensures pages { IfOk result (λ pages. pages ≡ pages_needed (length image.now)) }
    ensures filled { OnOk result (Honestly (S.seen site.old) (S.seen site.new) (Becomes side (with_base epoch image.now))) }
    ensures any_moment { Honestly (S.seen site.old) (S.seen site.new) (Filling side) }
    ensures calls { OnOk result (Honestly (S.seen site.old) (S.seen site.new) (MakesCalls (filling_calls (pages_needed (length image.now))))) }
    ensures cause { HasCause DiskRose (S.faults site.old) (S.faults site.new) result }
{
    match site.write(side, 1, &tail(epoch, pages_needed(image.len()))) {
        Ok(()) => {}
        Err(Failed) => return Err(DiskFault),
    }
    let pages = match write_pages(site, side, epoch, image) {
        Ok(pages) => pages,
        Err(DiskFault) => return Err(DiskFault),
    };
    match site.write(side, FIRST + PAGE as u64 * pages, &[CLOSED]) {
        Ok(()) => {}
        Err(Failed) => return Err(DiskFault),
    }
    match site.sync(side) {
        Ok(()) => Ok(pages),
        Err(Failed) => Err(DiskFault),
    }
}

// Opens the gate of a side.
fn open_side<S: Site>(site: &mut S, side: Side) -> Result<(), DiskFault>
    requires closed { IfHonest (S.seen site.old) (λ s. IsEnd 0 (disk_of side s.disks)) }
    ensures opened { OnOk result (Honestly (S.seen site.old) (S.seen site.new) (Becomes side with_open_gate)) }
    ensures any_moment { Honestly (S.seen site.old) (S.seen site.new) (OpeningGate side) }
    ensures calls { OnOk result (Honestly (S.seen site.old) (S.seen site.new) (MakesCalls 2)) }
    ensures cause { HasCause DiskRose (S.faults site.old) (S.faults site.new) result }
{
    put(site, side, 0, &[OPEN])
}

/// Writes a side with the pages of an image and no record, and answers the place behind them; the side's gate is closed first
/// where it isn't closed yet.
pub fn write_side<S: Site>(
    site: &mut S,
    side: Side,
    epoch: u64,
    image: &[u8],
    is_closed: bool,
) -> Result<u64, DiskFault>
    requires room { page_place (pages_needed (length image.now)) < most_side }
    requires known { IfHonest (S.seen site.old) (λ s. IsKnown is_closed (disk_of side s.disks)) }
    ensures small { epoch < 2 ^ 64 }
    ensures end { IfOk result (λ end. end ≡ page_place (pages_needed (length image.now))) }
    ensures written { OnOk result (Honestly (S.seen site.old) (S.seen site.new) (Becomes side (base_bytes epoch image.now))) }
    ensures any_moment { Honestly (S.seen site.old) (S.seen site.new) (Writing side epoch image.now) }
    ensures calls { OnOk result (Honestly (S.seen site.old) (S.seen site.new) (MakesCalls (calls_for is_closed (pages_needed (length image.now))))) }
    ensures cause { HasCause DiskRose (S.faults site.old) (S.faults site.new) result }
{
    match close_side(site, side, is_closed) {
        Ok(()) => {}
        Err(DiskFault) => return Err(DiskFault),
    }
    let pages = match fill_side(site, side, epoch, image) {
        Ok(pages) => pages,
        Err(DiskFault) => return Err(DiskFault),
    };
    match open_side(site, side) {
        Ok(()) => Ok(FIRST + PAGE as u64 * pages),
        Err(DiskFault) => Err(DiskFault),
    }
}
