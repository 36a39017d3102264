//! How many calls of a site in memory there were.

ghost use Rattle.std.specs.Prelude.{◌≡◌, ◌≢◌};
ghost use Rattle.wot_site.specs.Calls.{calls_in, one_more, device_after};
ghost use Rattle.wot_site.specs.declared.memory.plan.CallKind.{CallKind};

use crate::memory::plan::CallKind;

/// The calls of each kind, and those of the device together. A count that comes to 2^64 - 1 stays there.
#[derive(Clone, Copy, Debug)]
pub struct Calls {
    pub takes: u64,
    pub tells: u64,
    pub sizes: u64,
    pub reads: u64,
    pub writes: u64,
    pub syncs: u64,
    pub device: u64,
}

impl Calls {
    /// How many calls of a kind there were.
    pub fn of(&self, kind: CallKind) -> u64
        ensures { result ≡ calls_in kind self.now }
    {
        match kind {
            CallKind::Take => self.takes,
            CallKind::Tell => self.tells,
            CallKind::Size => self.sizes,
            CallKind::Read => self.reads,
            CallKind::Write => self.writes,
            CallKind::Sync => self.syncs,
        }
    }

    /// Counts a call.
    pub fn count(&mut self, kind: CallKind)
        ensures number { calls_in kind self.new ≡ one_more (calls_in kind self.old) }
        ensures others { (other : CallKind) → other ≢ kind → calls_in other self.new ≡ calls_in other self.old }
        ensures device { self.new.device ≡ device_after kind self.old.device }
    {
        match kind {
            CallKind::Take => self.takes = self.takes.saturating_add(1),
            CallKind::Tell => self.tells = self.tells.saturating_add(1),
            CallKind::Size => self.sizes = self.sizes.saturating_add(1),
            CallKind::Read => self.reads = self.reads.saturating_add(1),
            CallKind::Write => self.writes = self.writes.saturating_add(1),
            CallKind::Sync => self.syncs = self.syncs.saturating_add(1),
        }
        match kind {
            CallKind::Take | CallKind::Tell => {}
            _ => self.device = self.device.saturating_add(1),
        }
    }
}
