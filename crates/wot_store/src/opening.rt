//! Opening a store.

ghost use Rattle.std.specs.Prelude.{◌≡◌, ◌&&◌, ◌<◌, ◌≤◌, is_none, nat_le, length, IfOk, OnOk, OnErr, IsErrOf, None};
ghost use Rattle.wot_site.specs.Seen.{Honestly, IfHonest};
ghost use Rattle.wot_site.specs.Site.{DiskRose, FailsOnlyBy, HasCause, Stays};
ghost use Rattle.wot_site.specs.Disk.{disk_of};
ghost use Rattle.wot_site.specs.Work.{Works};
ghost use Rattle.wot_site.specs.declared.side.Side.TheVariants.{Zero, One};
ghost use Rattle.wot_journal.specs.Commit.{MakesCalls};
ghost use Rattle.wot_types.specs.Image.{image_bytes};
ghost use Rattle.wot_types.specs.Levels.{rows_of};
ghost use Rattle.wot_types.specs.PagePlaces.{first_page, page_place, pages_needed};
ghost use Rattle.wot_types.specs.State.{opening_state};
ghost use Rattle.wot_types.specs.WellFormedState.{IsWellFormedState};
ghost use Rattle.wot_pages.specs.Pages.{contents_for};
ghost use Rattle.wot_store.specs.Base.{IsBaseOf};
ghost use Rattle.wot_store.specs.Opening.{AreSizes, Settles, Settling, InspectsSide, Inspects, IsReady, IsShownBy, Keeping, Opening, Opens, FindsBad, IsSettled, WritesOnlyBlank, FindsOrCreates, first_side};
ghost use Rattle.wot_store.specs.Shows.{IsStored};
ghost use Rattle.wot_store.specs.Writing.{Becomes, calls_for};
ghost use Rattle.wot_store.specs.Written.{Spares};

use crate::base::resume;
use crate::error::{BadStore, StoreError};
use crate::header::{Header, header_in};
use crate::image::spell_state;
use crate::pair::{Headers, headers_fault, shown_side};
use crate::place::Place;
use crate::writing::write_side;
use std::alloc::Global;
use std::thread::Threads;
use wot_live::Engine;
use wot_pages::{FIRST, pages_needed};
use wot_site::{DiskFault, Failed, RangeError, Side, Site, read_range};
use wot_types::Mem;
use wot_workers::{Gate, Workers};

/// A store that was opened: the engine of its state, and where its journal ends.
#[derive(Drop)]
pub struct Opened {
    pub engine: Engine,
    pub place: Place,
}

impl Opened {
    /// The same, with the index by issuers, which these workers make: where edits are to come, none of them has to.
    pub fn indexed<R: Threads + Sync, G: Gate + Sync>(
        self,
        workers: &Workers<'_, R, G>,
    ) -> Result<Opened, Mem>
        ensures engine { IfOk result (λ new. new.engine ≡ self.engine) }
        ensures place { IfOk result (λ new. new.place ≡ self.place) }
    {
        let engine = self.engine.indexed(workers)?;
        Ok(Opened { engine, ..self })
    }
}

/// How many bytes each side has.
#[derive(Clone, Copy, Debug, PartialEq, Eq)]
pub struct Sizes {
    pub zero: u64,
    pub one: u64,
}

// Has both sides on the disk as they read, and answers their sizes.
fn settle<S: Site>(site: &mut S) -> Result<Sizes, DiskFault>
    ensures settled { IfOk result (λ sizes. Honestly (S.seen site.old) (S.seen site.new) (Settles sizes)) }
    ensures any_moment { Honestly (S.seen site.old) (S.seen site.new) Settling }
    ensures calls { OnOk result (Honestly (S.seen site.old) (S.seen site.new) (MakesCalls 2)) }
    ensures cause { HasCause DiskRose (S.faults site.old) (S.faults site.new) result }
{
    match site.sync(Side::Zero) {
        Ok(()) => {}
        Err(Failed) => return Err(DiskFault),
    }
    match site.sync(Side::One) {
        Ok(()) => {}
        Err(Failed) => return Err(DiskFault),
    }
    let zero = match site.size(Side::Zero) {
        Ok(size) => size,
        Err(Failed) => return Err(DiskFault),
    };
    match site.size(Side::One) {
        Ok(one) => Ok(Sizes { zero, one }),
        Err(Failed) => Err(DiskFault),
    }
}

// Reads the header of a side that has so many bytes; None where the side is blank.
fn inspect_side<S: Site>(
    alloc: Global,
    site: &mut S,
    side: Side,
    size: u64,
) -> Result<Option<Header>, StoreError>
    requires size { IfHonest (S.seen site.old) (λ s. size ≡ length (disk_of side s.disks).reads) }
    ensures says { IfOk result (λ header. Honestly (S.seen site.old) (S.seen site.new) (InspectsSide side header)) }
    ensures stays { OnErr result (Honestly (S.seen site.old) (S.seen site.new) Stays) }
    ensures never { (b : _) → IsErrOf result (StoreError.Bad b) → S.seen site.old ≡ None }
    ensures cause { FailsOnlyBy StoreError.DiskFault (S.faults site.old) (S.faults site.new) result }
{
    if size < FIRST {
        return Ok(None);
    }
    match read_range(alloc, site, side, 0, FIRST as usize) {
        Ok(bytes) => Ok(header_in(&bytes)),
        Err(RangeError::DiskFault) => Err(StoreError::DiskFault),
        Err(RangeError::Short) => Err(StoreError::Bad(BadStore::Short(side, 0))),
        Err(RangeError::Memory) => Err(StoreError::Memory),
    }
}

// Reads the headers of sides that have so many bytes.
fn inspect<S: Site>(alloc: Global, site: &mut S, sizes: Sizes) -> Result<Headers, StoreError>
    requires sizes { IfHonest (S.seen site.old) (λ s. AreSizes sizes s.disks) }
    ensures says { IfOk result (λ headers. Honestly (S.seen site.old) (S.seen site.new) (Inspects headers)) }
    ensures stays { OnErr result (Honestly (S.seen site.old) (S.seen site.new) Stays) }
    ensures never { (b : _) → IsErrOf result (StoreError.Bad b) → S.seen site.old ≡ None }
    ensures cause { FailsOnlyBy StoreError.DiskFault (S.faults site.old) (S.faults site.new) result }
{
    let zero = match inspect_side(alloc, site, Side::Zero, sizes.zero) {
        Ok(header) => header,
        Err(e) => return Err(e),
    };
    match inspect_side(alloc, site, Side::One, sizes.one) {
        Ok(one) => Ok(Headers { zero, one }),
        Err(e) => Err(e),
    }
}

// Whether the gate of a side with this header and size is closed, in front of room for a header.
fn has_closed_gate(header: Option<Header>, size: u64) -> bool
    ensures { result ≡ (is_none header && nat_le first_page size) }
{
    header.is_none() && FIRST <= size
}

// The engine of a new store, and its image.
fn new_engine(alloc: Global) -> Result<(Engine, Vec<u8>), Mem>
    ensures engine { IfOk result (λ new. new.0 ≡ opening_state) }
    ensures base { IfOk result (λ new. IsBaseOf (contents_for new.1.items) opening_state) }
    ensures spelled { IfOk result (λ new. new.1.items ≡ image_bytes opening_state (rows_of opening_state)) }
    ensures end { IfOk result (λ new. page_place (pages_needed (length new.1.items)) ≡ 4120) }
{
    let engine = Engine::new(alloc)?;
    let image = spell_state(alloc, &engine)?;
    Ok((engine, image))
}

// Writes a first side over blank ones that have so many bytes. All memory is taken before its first write.
fn create<S: Site>(alloc: Global, site: &mut S, sizes: Sizes) -> Result<Opened, StoreError>
    requires ready { IfHonest (S.seen site.old) (λ s. IsReady sizes s.disks) }
    ensures sound { IfOk result (λ o. IsWellFormedState o.engine) }
    ensures created { IfOk result (λ o. Honestly (S.seen site.old) (S.seen site.new) (Opens o.place o.engine)) }
    ensures memory { IsErrOf result StoreError.Memory → Honestly (S.seen site.old) (S.seen site.new) Stays }
    ensures never_bad { (b : _) → IsErrOf result (StoreError.Bad b) → ⊥ }
    ensures any_moment { Honestly (S.seen site.old) (S.seen site.new) Keeping }
    ensures bytes { OnOk result (Honestly (S.seen site.old) (S.seen site.new) (Becomes Zero first_side)) }
    ensures calls { OnOk result (Honestly (S.seen site.old) (S.seen site.new) (MakesCalls (calls_for (nat_le 24 sizes.zero) 1))) }
    ensures written { Honestly (S.seen site.old) (S.seen site.new) (λ old new. Works (Spares One old.disks) old new) }
    ensures cause { FailsOnlyBy StoreError.DiskFault (S.faults site.old) (S.faults site.new) result }
{
    let (engine, image) = match new_engine(alloc) {
        Ok(new) => new,
        Err(Mem::Memory) => return Err(StoreError::Memory),
    };
    match write_side(
        site,
        Side::Zero,
        1,
        &image,
        has_closed_gate(None, sizes.zero),
    ) {
        Ok(end) => Ok(Opened {
            engine,
            place: Place {
                side: Side::Zero,
                epoch: 1,
                end,
                other_closed: has_closed_gate(None, sizes.one),
                pages: pages_needed(image.len()),
                records: 0,
            },
        }),
        Err(DiskFault) => Err(StoreError::DiskFault),
    }
}

// Opens the shown side, which has this header among these of both.
fn open_shown<R: Threads + Sync, S: Site, G: Gate + Sync>(
    workers: &Workers<'_, R, G>,
    alloc: Global,
    site: &mut S,
    headers: Headers,
    sizes: Sizes,
    shown: (Side, Header),
) -> Result<Opened, StoreError>
    requires shown { IfHonest (S.seen site.old) (λ s. IsShownBy headers sizes shown.0 shown.1 s.disks) }
    ensures sound { IfOk result (λ o. IsWellFormedState o.engine) }
    ensures opened { IfOk result (λ o. Honestly (S.seen site.old) (S.seen site.new) (Opens o.place o.engine)) }
    ensures stays { Honestly (S.seen site.old) (S.seen site.new) Stays }
    ensures bad { (b : _) → IsErrOf result (StoreError.Bad b) → Honestly (S.seen site.old) (S.seen site.new) (FindsBad b) }
    ensures cause { FailsOnlyBy StoreError.DiskFault (S.faults site.old) (S.faults site.new) result }
{
    let (side, header) = shown;
    let (size, other_closed) = match side {
        Side::Zero => (sizes.zero, has_closed_gate(headers.one, sizes.one)),
        Side::One => (sizes.one, has_closed_gate(headers.zero, sizes.zero)),
    };
    match resume(workers, alloc, site, side, header, size) {
        Ok(resumed) => Ok(Opened {
            engine: resumed.engine,
            place: Place {
                side,
                epoch: header.epoch,
                end: resumed.end,
                other_closed,
                pages: header.pages,
                records: resumed.records,
            },
        }),
        Err(e) => Err(e),
    }
}

/// Opens the store, and writes side Zero as a first one where both sides are blank. Both sides are synced first. All memory for a first
/// side is taken before it is written. The seals of the base's pages and its rows are checked by the workers, of whom those that check
/// rows call the gate first; the answer is the same for every gate and every number of workers.
pub fn open_store<R: Threads + Sync, S: Site, G: Gate + Sync>(
    workers: &Workers<'_, R, G>,
    alloc: Global,
    site: &mut S,
) -> Result<Opened, StoreError>
    ensures sound { IfOk result (λ o. IsWellFormedState o.engine) }
    ensures opened { IfOk result (λ o. Honestly (S.seen site.old) (S.seen site.new) (Opens o.place o.engine)) }
    ensures bad { (b : _) → IsErrOf result (StoreError.Bad b) → Honestly (S.seen site.old) (S.seen site.new) (FindsBad b) }
    ensures memory { IsErrOf result StoreError.Memory → Honestly (S.seen site.old) (S.seen site.new) IsSettled }
    ensures written { Honestly (S.seen site.old) (S.seen site.new) (λ old new. Works (WritesOnlyBlank old.disks) old new) }
    ensures any_moment { Honestly (S.seen site.old) (S.seen site.new) Opening }
    ensures calls { OnOk result (Honestly (S.seen site.old) (S.seen site.new) FindsOrCreates) }
    ensures cause { FailsOnlyBy StoreError.DiskFault (S.faults site.old) (S.faults site.new) result }
{
    let sizes = match settle(site) {
        Ok(sizes) => sizes,
        Err(DiskFault) => return Err(StoreError::DiskFault),
    };
    let headers = match inspect(alloc, site, sizes) {
        Ok(headers) => headers,
        Err(e) => return Err(e),
    };
    if let Some(bad) = headers_fault(headers) {
        return Err(StoreError::Bad(bad));
    }
    match shown_side(headers) {
        None => create(alloc, site, sizes),
        Some(shown) => open_shown(workers, alloc, site, headers, sizes, shown),
    }
}
