//! Putting a record onto the disk.

ghost use Rattle.std.specs.Prelude.{◌≡◌, ◌+◌, ◌<◌, ◌≤◌, length, IfOk, OnOk, OnErr};
ghost use Rattle.wot_types.specs.PagePlaces.{most_side};
ghost use Rattle.wot_site.specs.Disk.{disk_of};
ghost use Rattle.wot_site.specs.Seen.{Honestly, IfHonest};
ghost use Rattle.wot_site.specs.Site.{HasCause, DiskRose};
ghost use Rattle.wot_site.specs.Work.{Works};
ghost use Rattle.wot_journal.specs.Record.{most_side};
ghost use Rattle.wot_journal.specs.Commit.{MakesCalls, Puts, PutsNot, IsEnd, Commits, CommitsNot, IsCommitting};

use crate::record::Built;
use wot_site::{DiskFault, Failed, OPEN, Side, Site};

/// Writes, and has it on the disk before it answers.
pub fn put<S: Site>(site: &mut S, side: Side, at: u64, bytes: &[u8]) -> Result<(), DiskFault>
    requires fits { at + length bytes.now ≤ most_side }
    requires within { IfHonest (S.seen site.old) (λ s. at ≤ length (disk_of side s.disks).reads) }
    ensures ok { OnOk result (Honestly (S.seen site.old) (S.seen site.new) (Puts side at bytes.now)) }
    ensures err { OnErr result (Honestly (S.seen site.old) (S.seen site.new) (PutsNot side at bytes.now)) }
    ensures calls { OnOk result (Honestly (S.seen site.old) (S.seen site.new) (MakesCalls 2)) }
    ensures cause { HasCause DiskRose (S.faults site.old) (S.faults site.new) result }
{
    match site.write(side, at, bytes) {
        Ok(()) => {}
        Err(Failed) => return Err(DiskFault),
    }
    match site.sync(side) {
        Ok(()) => Ok(()),
        Err(Failed) => Err(DiskFault),
    }
}

/// Puts a record at the journal's end and opens its gate; it answers the new end.
pub fn commit<S: Site>(site: &mut S, side: Side, built: &Built) -> Result<u64, DiskFault>
    requires at_end { IfHonest (S.seen site.old) (λ s. IsEnd built.now.end (disk_of side s.disks)) }
    ensures end { IfOk result (λ end. end ≡ built.now.end + length built.now.payload + 5) }
    ensures room { built.now.end + length built.now.payload + 6 ≤ most_side }
    ensures committed { OnOk result (Honestly (S.seen site.old) (S.seen site.new) (Commits side built.now)) }
    ensures calls { OnOk result (Honestly (S.seen site.old) (S.seen site.new) (MakesCalls 4)) }
    ensures failed { OnErr result (Honestly (S.seen site.old) (S.seen site.new) (CommitsNot side built.now)) }
    // At each moment of it each image has the journal as it was, or the record too.
    ensures any_moment { Honestly (S.seen site.old) (S.seen site.new) (λ old new. Works (IsCommitting side built.now old.disks) old new) }
    ensures cause { HasCause DiskRose (S.faults site.old) (S.faults site.new) result }
{
    let body = built.body();
    let end = built.end();
    match put(site, side, end + 1, body) {
        Ok(()) => {}
        Err(DiskFault) => return Err(DiskFault),
    }
    match put(site, side, end, &[OPEN]) {
        Ok(()) => Ok(end + body.len() as u64),
        Err(DiskFault) => Err(DiskFault),
    }
}
