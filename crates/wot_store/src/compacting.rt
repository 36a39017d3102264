//! Writing the state anew on the other side.

ghost use Rattle.std.specs.Prelude.{◌≡◌, ◌+◌, ◌<◌, Ok, IfOk, OnOk, IsErrOf};
ghost use Rattle.wot_site.specs.Seen.{Honestly, IfHonest};
ghost use Rattle.wot_site.specs.Site.{FailsOnlyBy, Stays};
ghost use Rattle.wot_site.specs.Work.{Works};
ghost use Rattle.wot_journal.specs.Commit.{MakesCalls};
ghost use Rattle.wot_types.specs.Image.{image_bytes};
ghost use Rattle.wot_types.specs.Levels.{rows_of};
ghost use Rattle.wot_types.specs.PagePlaces.{pages_needed};
ghost use Rattle.wot_types.specs.WellFormedState.{IsWellFormedState};
ghost use Rattle.wot_types.specs.Store.{Store};
ghost use Rattle.wot_store.specs.Base.{other_side};
ghost use Rattle.wot_store.specs.Changing.{IsStoredAfter, ShowsEither};
ghost use Rattle.wot_types.specs.Compaction.{compacted_store, image_length, last_epoch};
ghost use Rattle.wot_store.specs.Compacting.{IsCompactable, compacted_place};
ghost use Rattle.wot_store.specs.Shows.{IsStored};
ghost use Rattle.wot_store.specs.Writing.{Becomes, base_bytes, calls_for};
ghost use Rattle.wot_store.specs.Written.{Spares};

use crate::image::spell_state;
use crate::place::Place;
use crate::writing::write_side;
use std::alloc::Global;
use thiserror::Error;
use wot_live::Engine;
use wot_pages::pages_needed;
use wot_site::{DiskFault, Side, Site};
use wot_types::Mem;

/// Why a store was not compacted.
#[derive(Clone, Copy, Debug, PartialEq, Eq, Drop, Error)]
pub enum CompactError {
    #[error("disk fault")]
    DiskFault,
    #[error("out of memory")]
    Memory,
}

// The other side.
fn other_side(side: Side) -> Side
    ensures { result ≡ other_side side }
{
    match side {
        Side::Zero => Side::One,
        Side::One => Side::Zero,
    }
}

/// Writes the shown state as the base of the other side, with the next epoch, and answers the place there. At the last epoch
/// nothing is done. All memory is taken before the first device call, and the shown side is never written.
pub fn compact<S: Site>(
    alloc: Global,
    engine: &Engine,
    place: Place,
    site: &mut S,
) -> Result<Place, CompactError>
    requires sound { IsWellFormedState engine.now }
    requires stored { IfHonest (S.seen site.old) (λ s. IsCompactable place engine.now s.disks) }
    ensures place { IfOk result (λ new. new ≡ compacted_place place engine.now) }
    ensures compacted { OnOk result ((shown : Store) → shown.state ≡ engine.now → IfHonest (S.seen site.old) (λ s. IsStored place shown s.disks)
        → Honestly (S.seen site.old) (S.seen site.new) (IsStoredAfter (compacted_place place engine.now) (compacted_store shown))) }
    ensures any_moment { (shown : Store) → shown.state ≡ engine.now → IfHonest (S.seen site.old) (λ s. IsStored place shown s.disks)
        → Honestly (S.seen site.old) (S.seen site.new) (ShowsEither shown (compacted_store shown)) }
    ensures written { Honestly (S.seen site.old) (S.seen site.new) (λ old new. Works (Spares place.side old.disks) old new) }
    ensures bytes { place.epoch < last_epoch → OnOk result (Honestly (S.seen site.old) (S.seen site.new)
        (Becomes (other_side place.side) (base_bytes (place.epoch + 1) (image_bytes engine.now (rows_of engine.now))))) }
    ensures calls { place.epoch < last_epoch → OnOk result (Honestly (S.seen site.old) (S.seen site.new)
        (MakesCalls (calls_for place.other_closed (pages_needed (image_length engine.now))))) }
    ensures last { place.epoch ≡ last_epoch → result ≡ Ok place }
    ensures unwritten { place.epoch ≡ last_epoch → Honestly (S.seen site.old) (S.seen site.new) Stays }
    ensures memory { IsErrOf result CompactError.Memory → Honestly (S.seen site.old) (S.seen site.new) Stays }
    ensures cause { FailsOnlyBy CompactError.DiskFault (S.faults site.old) (S.faults site.new) result }
{
    if place.epoch == u64::MAX {
        return Ok(place);
    }
    let image = match spell_state(alloc, engine) {
        Ok(image) => image,
        Err(Mem::Memory) => return Err(CompactError::Memory),
    };
    let side = other_side(place.side);
    let epoch = place.epoch + 1;
    match write_side(site, side, epoch, &image, place.other_closed) {
        Ok(end) => Ok(Place {
            side,
            epoch,
            end,
            other_closed: false,
            pages: pages_needed(image.len()),
            records: 0,
        }),
        Err(DiskFault) => Err(CompactError::DiskFault),
    }
}
