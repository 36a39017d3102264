//! What an answer does to the store, before it is told.

ghost use Rattle.std.specs.Prelude.{◌≡◌, IfOk, IfErr, IsErrOf};
ghost use Rattle.wot_types.specs.Store.{Store};
ghost use Rattle.wot_site.specs.Seen.{Honestly};
ghost use Rattle.wot_site.specs.Site.{Stays};
ghost use Rattle.wot_site.specs.Work.{Works};
ghost use Rattle.wot_store.specs.Changing.{ShowsEither};
ghost use Rattle.wot_session.specs.SessionState.{Holds, IsPlace, IsReadyFor, Performs};
ghost use Rattle.wot_session.specs.Answering.{StopsTelling};
ghost use Rattle.wot_session.specs.Stop.{IsNoBadStore};
ghost use Rattle.wot_session.specs.Written.{WritesTo};

use crate::stop::Stop;
use std::alloc::Global;
use wot_answer::Effect;
use wot_live::Engine;
use wot_site::{DiskFault, Site};
use wot_store::{CompactError, Place, append, compact};

/// Does to the store what a command asks for, and has it on the disk before it answers. For an edit it takes no memory, and to compact the
/// store it takes all of it first.
pub fn do_effect<S: Site>(
    alloc: Global,
    site: &mut S,
    engine: &Engine,
    place: Place,
    effect: &Effect,
) -> Result<Place, Stop>
    requires { IsReadyFor place engine.now effect.now (S.seen site.old) }
    ensures place { IfOk result (λ after. (s t : Store) → Performs place engine.now effect.now s t → IsPlace after t) }
    ensures holds { IfOk result (λ after. (s t : Store) → Performs place engine.now effect.now s t → Holds place (S.seen site.old) s → Holds after (S.seen site.new) t) }
    ensures any_moment { (s t : Store) → Performs place engine.now effect.now s t → Holds place (S.seen site.old) s
        → Honestly (S.seen site.old) (S.seen site.new) (ShowsEither s t) }
    ensures written { (s t : Store) → Performs place engine.now effect.now s t → Holds place (S.seen site.old) s
        → Honestly (S.seen site.old) (S.seen site.new) (λ old new. Works (WritesTo s t old.disks) old new) }
    ensures memory { IsErrOf result Stop.Memory → Honestly (S.seen site.old) (S.seen site.new) Stays }
    ensures sound { IfErr result IsNoBadStore }
    ensures cause { StopsTelling (S.faults site.old) (S.faults site.new) result }
{
    match effect {
        Effect::Nothing => Ok(place),
        Effect::Append(built) => match append(place, site, built) {
            Ok(after) => Ok(after),
            Err(DiskFault) => Err(Stop::DiskFault),
        },
        Effect::Compact => match compact(alloc, engine, place, site) {
            Ok(after) => Ok(after),
            Err(CompactError::DiskFault) => Err(Stop::DiskFault),
            Err(CompactError::Memory) => Err(Stop::Memory),
        },
    }
}
