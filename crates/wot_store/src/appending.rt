//! Appending edits.

ghost use Rattle.std.specs.Prelude.{◌≡◌, ◌+◌, length, IfOk, OnErr, OnOk};
ghost use Rattle.wot_site.specs.Seen.{Honestly, IfHonest};
ghost use Rattle.wot_site.specs.Site.{HasCause, DiskRose};
ghost use Rattle.wot_site.specs.Work.{Works};
ghost use Rattle.wot_journal.specs.Commit.{Commits, CommitsNot, MakesCalls};
ghost use Rattle.wot_types.specs.Outcome.{edited_store};
ghost use Rattle.wot_types.specs.Store.{Store};
ghost use Rattle.wot_types.specs.declared.edit.Edit.{Edit};
ghost use Rattle.wot_store.specs.Shows.{IsStored};
ghost use Rattle.wot_store.specs.Written.{WritesBetween};
ghost use Rattle.wot_store.specs.Appending.{IsRecordHere, IsRecordOf, place_after};
ghost use Rattle.wot_store.specs.Changing.{IsStoredAfter, ShowsEither};

use crate::place::Place;
use wot_journal::{Built, commit};
use wot_site::{DiskFault, Site};

/// Appends the record of an edit, which was built for this place; it answers the new place. Of the sides the shown one alone is
/// written, from its journal's end to the closed gate behind the record.
pub fn append<S: Site>(place: Place, site: &mut S, built: &Built) -> Result<Place, DiskFault>
    requires next { IfHonest (S.seen site.old) (λ s. IsRecordHere place built.now s.disks) }
    ensures place { IfOk result (λ new. new ≡ place_after place built.now) }
    ensures appended { OnOk result ((shown : Store) (edit : Edit) → IsRecordOf built.now shown edit
        → IfHonest (S.seen site.old) (λ s. IsStored place shown s.disks)
        → Honestly (S.seen site.old) (S.seen site.new) (IsStoredAfter (place_after place built.now) (edited_store shown edit))) }
    ensures any_moment { (shown : Store) (edit : Edit) → IsRecordOf built.now shown edit
        → IfHonest (S.seen site.old) (λ s. IsStored place shown s.disks)
        → Honestly (S.seen site.old) (S.seen site.new) (ShowsEither shown (edited_store shown edit)) }
    ensures written { Honestly (S.seen site.old) (S.seen site.new) (λ old new. Works (WritesBetween place.side place.end ((place_after place built.now).end + 1) old.disks) old new) }
    ensures bytes { OnOk result (Honestly (S.seen site.old) (S.seen site.new) (Commits place.side built.now)) }
    ensures calls { OnOk result (Honestly (S.seen site.old) (S.seen site.new) (MakesCalls 4)) }
    ensures failed { OnErr result (Honestly (S.seen site.old) (S.seen site.new) (CommitsNot place.side built.now)) }
    ensures cause { HasCause DiskRose (S.faults site.old) (S.faults site.new) result }
{
    match commit(site, place.side, built) {
        Ok(end) => Ok(Place {
            end,
            records: place.records.saturating_add(1),
            ..place
        }),
        Err(DiskFault) => Err(DiskFault),
    }
}
