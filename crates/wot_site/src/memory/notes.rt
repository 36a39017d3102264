//! The record of calls of a site in memory.

ghost use Rattle.std.specs.Prelude.{◌≡◌, ◌≤◌, length, OnOk, OnErr};
ghost use Rattle.wot_site.specs.Disk.{disk_of, after_write, after_sync};
ghost use Rattle.wot_site.specs.Site.{on_disk, after_asking, after_tell};

use crate::asked::Asked;
use crate::memory::MemorySite;
use crate::side::Side;
use wot_types::Mem;

/// A call that told, wrote or synced.
#[derive(Debug, Drop)]
pub enum Note {
    /// These bytes were told.
    Told(Vec<u8>),
    /// These bytes were written on a side from that place on.
    Wrote(Side, u64, Vec<u8>),
    /// A side was synced.
    Synced(Side),
}

/// A call in the record, and whether it is the first of its run.
#[derive(Debug, Drop)]
pub struct Noted {
    pub first: bool,
    pub note: Note,
}

impl MemorySite {
    ghost use Rattle.wot_site.specs.MemorySite.{seen_of, SameCounts, SamePlan};

    // Notes a call of `take`; want of memory leaves all as it was.
    pub(super) fn note_ask(&mut self) -> Result<(), Mem>
        ensures ok { OnOk result (seen_of self.new ≡ after_asking (seen_of self.old)) }
        ensures err { OnErr result (seen_of self.new ≡ seen_of self.old) }
        ensures counts { SameCounts self.old self.new }
        ensures plan { SamePlan self.old self.new }
    {
        self.asks.push(Asked {
            taken: self.taken,
            told: self.told.len(),
        })?;
        Ok(())
    }

    // Writes, and notes it; want of memory leaves all as it was.
    #[tactic(auto, using(crate::proofs::Noting::replay_push))]
    pub(super) fn note_write(&mut self, side: Side, at: u64, bytes: &[u8]) -> Result<(), Mem>
        requires { at ≤ length (disk_of side (seen_of self.old).disks).reads }
        ensures ok { OnOk result (seen_of self.new ≡ on_disk side (after_write at bytes.now) (seen_of self.old)) }
        ensures err { OnErr result (seen_of self.new ≡ seen_of self.old) }
        ensures counts { SameCounts self.old self.new }
        ensures plan { SamePlan self.old self.new }
    {
        let copy = Vec::from_slice(self.alloc, bytes)?;
        self.notes.push(Noted {
            first: self.fresh,
            note: Note::Wrote(side, at, copy),
        })?;
        let written = match side {
            Side::Zero => self.zero.write(self.alloc, at as usize, bytes),
            Side::One => self.one.write(self.alloc, at as usize, bytes),
        };
        if written.is_err() {
            let _ = self.notes.pop();
            return Err(Mem::Memory);
        }
        self.fresh = false;
        Ok(())
    }

    // Tells, and notes it; want of memory leaves all as it was.
    #[tactic(auto, using(crate::proofs::Noting::replay_push))]
    pub(super) fn note_told(&mut self, bytes: &[u8]) -> Result<(), Mem>
        ensures ok { OnOk result (seen_of self.new ≡ after_tell bytes.now (seen_of self.old)) }
        ensures err { OnErr result (seen_of self.new ≡ seen_of self.old) }
        ensures counts { SameCounts self.old self.new }
        ensures plan { SamePlan self.old self.new }
    {
        let copy = Vec::from_slice(self.alloc, bytes)?;
        self.notes.push(Noted {
            first: self.fresh,
            note: Note::Told(copy),
        })?;
        if self.told.extend_from_slice(bytes).is_err() {
            let _ = self.notes.pop();
            return Err(Mem::Memory);
        }
        self.fresh = false;
        Ok(())
    }

    // Syncs, and notes it; want of memory leaves all as it was.
    #[tactic(auto, using(crate::proofs::Noting::replay_push))]
    pub(super) fn note_sync(&mut self, side: Side) -> Result<(), Mem>
        ensures ok { OnOk result (seen_of self.new ≡ on_disk side after_sync (seen_of self.old)) }
        ensures err { OnErr result (seen_of self.new ≡ seen_of self.old) }
        ensures counts { SameCounts self.old self.new }
        ensures plan { SamePlan self.old self.new }
    {
        self.notes.push(Noted {
            first: self.fresh,
            note: Note::Synced(side),
        })?;
        let synced = match side {
            Side::Zero => self.zero.sync(self.alloc),
            Side::One => self.one.sync(self.alloc),
        };
        if synced.is_err() {
            let _ = self.notes.pop();
            return Err(Mem::Memory);
        }
        self.fresh = false;
        Ok(())
    }
}
