//! A side of the store in memory.

ghost use Rattle.std.specs.Prelude.{◌≡◌, ◌≤◌, length, IfOk, OnOk, OnErr};
ghost use Rattle.wot_site.specs.Disk.{IsCrashImage};
ghost use Rattle.wot_site.specs.MemorySide.{IsFilled, disk, at_rest, after_writing, synced_now};

use crate::bytes::{fill_range, written_over};
use crate::range::Range;
use std::alloc::Global;
use std::marker::Model;
use wot_types::Mem;

/// What a side reads, what it read at the last sync, and the ranges written since.
#[derive(Drop)]
pub struct MemorySide {
    reads: Vec<u8>,
    synced: Vec<u8>,
    pending: Vec<Range>,
}

impl Model for MemorySide {
    ghost use Rattle.std.specs.Prelude.{length};
    ghost use Rattle.wot_site.specs.Disk.{IsCrashImage};
    ghost use Rattle.wot_site.specs.MemorySide.{Bytes};

    ghost Value = { Bytes };

    ghost view = { λ s. record { reads = s.reads.items; synced = s.synced.items; pending = s.pending.items } };

    // What was read at the last sync is one of the images: that no pending write was made.
    ghost invariant = { λ s. IsCrashImage (record { reads = s.reads.items; synced = length s.synced.items; pending = s.pending.items }) s.synced.items };
}

impl MemorySide {
    /// A side with these bytes and nothing pending.
    pub fn new(alloc: Global, bytes: Vec<u8>) -> Result<MemorySide, Mem>
        ensures { IfOk result (λ side. side ≡ at_rest bytes.items) }
    {
        let synced = bytes.to_vec(alloc)?;
        Ok(MemorySide {
            reads: bytes,
            synced,
            pending: Vec::new(alloc),
        })
    }

    pub fn bytes(&self) -> &[u8]
        ensures { result.now ≡ self.now.reads }
    {
        &self.reads
    }

    /// Writes; want of memory leaves the side as it was.
    pub fn write(&mut self, alloc: Global, at: usize, bytes: &[u8]) -> Result<(), Mem>
        requires { at ≤ length self.old.reads }
        ensures ok { OnOk result (self.new ≡ after_writing at bytes.now self.old) }
        ensures err { OnErr result (self.new ≡ self.old) }
    {
        let next = written_over(alloc, &self.reads, at, bytes)?;
        self.pending.push(Range {
            at: at as u64,
            len: bytes.len(),
        })?;
        self.reads = next;
        Ok(())
    }

    /// Syncs; want of memory leaves the side as it was.
    pub fn sync(&mut self, alloc: Global) -> Result<(), Mem>
        ensures ok { OnOk result (self.new ≡ synced_now self.old) }
        ensures err { OnErr result (self.new ≡ self.old) }
    {
        let synced = self.reads.to_vec(alloc)?;
        self.synced = synced;
        self.pending.clear();
        Ok(())
    }

    /// The image in which no pending write was made.
    pub fn without(&self, alloc: Global) -> Result<Vec<u8>, Mem>
        ensures image { IfOk result (λ v. IsCrashImage (disk self.now) v.items) }
        ensures which { IfOk result (λ v. v.items ≡ self.now.synced) }
    {
        Ok(self.synced.to_vec(alloc)?)
    }

    /// The image in which every write was made.
    pub fn with_all(&self, alloc: Global) -> Result<Vec<u8>, Mem>
        ensures image { IfOk result (λ v. IsCrashImage (disk self.now) v.items) }
        ensures which { IfOk result (λ v. v.items ≡ self.now.reads) }
    {
        Ok(self.reads.to_vec(alloc)?)
    }

    /// The image with this byte in each pending range.
    pub fn with_fill(&self, alloc: Global, byte: u8) -> Result<Vec<u8>, Mem>
        ensures image { IfOk result (λ v. IsCrashImage (disk self.now) v.items) }
        ensures which { IfOk result (λ v. IsFilled byte (disk self.now) v.items) }
    {
        let mut image = self.reads.to_vec(alloc)?;
        for range in self.pending.iter() {
            fill_range(&mut image, range.at, range.len, byte);
        }
        Ok(image)
    }
}
