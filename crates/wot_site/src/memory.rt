//! A site in memory, whose calls fail where they are planned to.

ghost use Rattle.std.specs.Prelude.{◌≡◌, ◌⊎◌, ◌↔◌, ◌<◌, ◌≤◌, ◌+◌, [], length, take, min, vec_len, Some, None, IsTrue, IfOk, OnOk, OnErr, IsErr};
ghost use Rattle.wot_site.specs.Notes.{IsNoted};

mod calls; // how many calls there were
mod crash; // what a crash may leave
mod notes; // the record of calls
mod plan; // which calls fail
mod side; // a side of the store

use crate::asked::Asked;
use crate::bytes::{bytes_per_call, copy_front, read_at};
use crate::failed::Failed;
use crate::memory::calls::Calls;
use crate::memory::crash::image_of;
use crate::memory::notes::Noted;
use crate::memory::plan::Plan;
use crate::memory::side::MemorySide;
use crate::side::Side;
use crate::site::Site;
pub use crash::Pick;
pub use plan::CallKind;
use std::alloc::Global;
use wot_types::Mem;

/// A site that tells all that it sees and does. A count of it that comes to 2^64 - 1 stays there.
#[derive(Drop)]
pub struct MemorySite {
    alloc: Global,
    input: Vec<u8>,
    taken: usize,
    told: Vec<u8>,
    asks: Vec<Asked>,
    zero: MemorySide,
    one: MemorySide,
    // What the sides had at the start, and what was done since.
    first_zero: Vec<u8>,
    first_one: Vec<u8>,
    notes: Vec<Noted>,
    // Whether nothing was noted since the run began.
    fresh: bool,
    plan: Plan,
    calls: Calls,
    take_faults: u64,
    tell_faults: u64,
    disk_faults: u64,
    starved: u64,
    ghost taken_of_input: { taken ≤ vec_len input },
    ghost noted: { IsNoted first_zero.items first_one.items notes.items fresh zero one told.items },
}

impl MemorySite {
    ghost use Rattle.wot_site.specs.Disk.{IsImageOf};
    ghost use Rattle.wot_site.specs.CallBytes.{bytes_per_call};
    ghost use Rattle.wot_site.specs.Site.{after_giving};
    ghost use Rattle.wot_site.specs.MemorySite.{seen_of, first_seen, starved_of, plan_of, stop_of, cut_of, calls_of, device_of, past_of, again_seen, IsPickedOf, IsPlanned, IsDue, SameCounts, SamePlan, SameRun};

    /// A site over this input and these sides, with nothing told, nothing pending, no call planned to fail and no cut.
    pub fn new(
        alloc: Global,
        input: Vec<u8>,
        zero: Vec<u8>,
        one: Vec<u8>,
    ) -> Result<MemorySite, Mem>
        ensures seen { IfOk result (λ site. ⟦<MemorySite as Site>⟧.seen site ≡ Some (first_seen input.items zero.items one.items)) }
        ensures faults { IfOk result (λ site. ⟦<MemorySite as Site>⟧.faults site
            ≡ record { take = 0; tell = 0; disk = 0 }) }
        ensures starved { IfOk result (λ site. starved_of site ≡ 0) }
        ensures calls { IfOk result (λ site. (kind : _) → calls_of kind site ≡ 0) }
        ensures device { IfOk result (λ site. device_of site ≡ 0) }
        ensures plan { IfOk result (λ site. plan_of site ≡ []) }
        ensures stop { IfOk result (λ site. stop_of site ≡ None) }
        ensures cut { IfOk result (λ site. cut_of site ≡ None) }
    {
        let first_zero = Vec::from_slice(alloc, &zero)?;
        let first_one = Vec::from_slice(alloc, &one)?;
        let zero = MemorySide::new(alloc, zero)?;
        let one = MemorySide::new(alloc, one)?;
        Ok(MemorySite {
            alloc,
            input,
            taken: 0,
            told: Vec::new(alloc),
            asks: Vec::new(alloc),
            zero,
            one,
            first_zero,
            first_one,
            notes: Vec::new(alloc),
            fresh: true,
            plan: Plan {
                fails: Vec::new(alloc),
                stop: None,
                cut: None,
            },
            calls: Calls {
                takes: 0,
                tells: 0,
                sizes: 0,
                reads: 0,
                writes: 0,
                syncs: 0,
                device: 0,
            },
            take_faults: 0,
            tell_faults: 0,
            disk_faults: 0,
            starved: 0,
        })
    }

    /// Lets the n-th call of a kind fail for each pair of a kind and a number n, counted from 1 since `new`.
    pub fn with_failures(mut self, fails: Vec<(CallKind, u32)>) -> MemorySite
        ensures plan { plan_of result ≡ fails.items }
        ensures stop { stop_of result ≡ stop_of self }
        ensures cut { cut_of result ≡ cut_of self }
        ensures run { SameRun self result }
    {
        self.plan.fails = fails;
        self
    }

    /// Lets every device call from the n-th on fail, counted together from 1 since `new`.
    pub fn with_stop(mut self, n: u32) -> MemorySite
        ensures stop { stop_of result ≡ Some n }
        ensures plan { plan_of result ≡ plan_of self }
        ensures cut { cut_of result ≡ cut_of self }
        ensures run { SameRun self result }
    {
        self.plan.stop = Some(n);
        self
    }

    /// Lets at most that many bytes pass in one call of `take` or `tell`.
    pub fn with_cut(mut self, most: u32) -> MemorySite
        requires { 1 ≤ most }
        ensures cut { cut_of result ≡ Some most }
        ensures plan { plan_of result ≡ plan_of self }
        ensures stop { stop_of result ≡ stop_of self }
        ensures run { SameRun self result }
    {
        self.plan.cut = Some(most);
        self
    }

    /// The site for one more run, with another input: nothing is told, no call is planned to fail, and there is no stop
    /// and no cut. What is pending stays pending, and the calls are counted on.
    pub fn again(mut self, input: Vec<u8>) -> MemorySite
        ensures seen { ⟦<MemorySite as Site>⟧.seen result ≡ Some (again_seen input.items (seen_of self)) }
        ensures notes { past_of result ≡ record (past_of self) { told = [] } }
        ensures plan { plan_of result ≡ [] }
        ensures stop { stop_of result ≡ None }
        ensures cut { cut_of result ≡ None }
        ensures counts { SameCounts self result }
    {
        self.input = input;
        self.taken = 0;
        self.told.clear();
        self.fresh = true;
        self.plan = Plan {
            fails: Vec::new(self.alloc),
            stop: None,
            cut: None,
        };
        self
    }

    /// The bytes told so far.
    pub fn told(&self) -> &[u8]
        ensures told { result.now ≡ (seen_of self.now).told }
        ensures honest { ⟦<MemorySite as Site>⟧.seen self.now ≡ Some (seen_of self.now) }
    {
        &self.told
    }

    /// How often a call found no memory for its own note.
    pub fn starved(&self) -> u64
        ensures { result ≡ starved_of self.now }
    {
        self.starved
    }

    /// One image of the two sides that a crash may leave now.
    pub fn crash(&self, pick: Pick) -> Result<(Vec<u8>, Vec<u8>), Mem>
        ensures image { IfOk result (λ p. IsImageOf (seen_of self.now).disks (record { zero = p.0.items; one = p.1.items })) }
        ensures picked { IfOk result (λ p. IsPickedOf pick self.now (record { zero = p.0.items; one = p.1.items })) }
    {
        let zero = image_of(self.alloc, &self.zero, pick)?;
        let one = image_of(self.alloc, &self.one, pick)?;
        Ok((zero, one))
    }

    // Whether the next call of that kind is planned to fail.
    fn is_planned(&self, kind: CallKind) -> bool
        ensures { IsTrue result ↔ IsPlanned kind self.now }
    {
        self.plan
            .has_call(kind, self.calls.of(kind).saturating_add(1))
    }

    // Whether the next call of the device, being of that kind, is to fail.
    fn is_due(&self, kind: CallKind) -> bool
        ensures { IsTrue result ↔ IsDue kind self.now }
    {
        self.is_planned(kind) || self.plan.is_stopped(self.calls.device.saturating_add(1))
    }

    // Gives the next bytes of the input, as many as fit and pass in one call, and answers how many.
    fn give(&mut self, buf: &mut [u8]) -> usize
        ensures moved { result ≡ bytes_per_call (cut_of self.old) (min (length buf.old) (length (seen_of self.old).left)) }
        ensures front { take result buf.new ≡ take result (seen_of self.old).left }
        ensures within { result ≤ length (seen_of self.old).left }
        ensures last { result ≡ 0 → 0 < length buf.new → (seen_of self.old).left ≡ [] }
        ensures same { length buf.new ≡ length buf.old }
        ensures given { seen_of self.new ≡ after_giving result (seen_of self.old) }
        ensures counts { SameCounts self.old self.new }
        ensures plan { SamePlan self.old self.new }
    {
        let left = &self.input[self.taken..];
        let n = bytes_per_call(self.plan.cut, buf.len().min(left.len()));
        copy_front(buf, left, n);
        self.taken += n;
        n
    }
}

impl Site for MemorySite {
    ghost use Rattle.wot_types.specs.PagePlaces.{most_side};
    ghost use Rattle.wot_site.specs.Disk.{disk_of};
    ghost use Rattle.wot_site.specs.CallBytes.{bytes_per_call};
    ghost use Rattle.wot_site.specs.Site.{after_asking, Takes, TakesNothing, Tells, Stays, Sizes, Reads, Writes, WritesOrNot, Syncs, HasCause, Rose, TakeRose, TellRose, DiskRose};
    ghost use Rattle.wot_site.specs.MemorySite.{seen_of, faults_of, starved_of, cut_of, IsPlanned, IsDue, with_fault, OneCall};
    ghost use Rattle.wot_site.specs.Calls.{one_more};
    ghost use Rattle.wot_site.specs.declared.memory.plan.CallKind.TheVariants.{Take, Tell, Size, Read, Write, Sync};

    ghost seen = { λ site. Some (seen_of site) };

    ghost faults = { faults_of };

    /// Notes the call, and then moves bytes or fails.
    fn take(&mut self, buf: &mut [u8]) -> Result<usize, Failed>
        ensures fits { IfOk result (λ n. n ≤ length buf.old) }
        ensures ok { IfOk result (λ n. Takes n buf.new (seen_of self.old) (seen_of self.new)) }
        ensures err { OnErr result (TakesNothing (seen_of self.old) (seen_of self.new)) }
        ensures cause { HasCause TakeRose (faults_of self.old) (faults_of self.new) result }
        ensures moved { IfOk result (λ n. n ≡ bytes_per_call (cut_of self.old) (min (length buf.old) (length (seen_of self.old).left))) }
        ensures noted { OnErr result ((seen_of self.new ≡ after_asking (seen_of self.old)) ⊎ Rose (starved_of self.old) (starved_of self.new)) }
        ensures planned { IsPlanned Take self.old → IsErr result }
        ensures starves { starved_of self.old < starved_of self.new → IsErr result × (seen_of self.new ≡ seen_of self.old) }
        ensures failed { IsErr result → IsPlanned Take self.old ⊎ Rose (starved_of self.old) (starved_of self.new) }
        ensures faults_rise { OnErr result (faults_of self.new ≡ with_fault Take (faults_of self.old)) }
        ensures starved { (starved_of self.new ≡ starved_of self.old) ⊎ (starved_of self.new ≡ one_more (starved_of self.old)) }
        ensures called { OneCall Take self.old self.new }
    {
        let planned = self.is_planned(CallKind::Take);
        self.calls.count(CallKind::Take);
        if self.note_ask().is_err() {
            self.starved = self.starved.saturating_add(1);
            self.take_faults = self.take_faults.saturating_add(1);
            return Err(Failed);
        }
        if planned {
            self.take_faults = self.take_faults.saturating_add(1);
            return Err(Failed);
        }
        Ok(self.give(buf))
    }

    /// Fails where it is planned to, and else notes what it tells.
    fn tell(&mut self, bytes: &[u8]) -> Result<usize, Failed>
        ensures fits { IfOk result (λ n. n ≤ length bytes.now) }
        ensures some { IfOk result (λ n. 0 < length bytes.now → 0 < n) }
        ensures ok { IfOk result (λ n. Tells n bytes.now (seen_of self.old) (seen_of self.new)) }
        ensures err { OnErr result (Stays (seen_of self.old) (seen_of self.new)) }
        ensures cause { HasCause TellRose (faults_of self.old) (faults_of self.new) result }
        ensures moved { IfOk result (λ n. n ≡ bytes_per_call (cut_of self.old) (length bytes.now)) }
        ensures planned { IsPlanned Tell self.old → IsErr result }
        ensures starves { starved_of self.old < starved_of self.new → IsErr result }
        ensures fed { IsPlanned Tell self.old → starved_of self.new ≡ starved_of self.old }
        ensures failed { IsErr result → IsPlanned Tell self.old ⊎ Rose (starved_of self.old) (starved_of self.new) }
        ensures faults_rise { OnErr result (faults_of self.new ≡ with_fault Tell (faults_of self.old)) }
        ensures starved { (starved_of self.new ≡ starved_of self.old) ⊎ (starved_of self.new ≡ one_more (starved_of self.old)) }
        ensures called { OneCall Tell self.old self.new }
    {
        let planned = self.is_planned(CallKind::Tell);
        self.calls.count(CallKind::Tell);
        if planned {
            self.tell_faults = self.tell_faults.saturating_add(1);
            return Err(Failed);
        }
        let n = bytes_per_call(self.plan.cut, bytes.len());
        if self.note_told(&bytes[..n]).is_err() {
            self.starved = self.starved.saturating_add(1);
            self.tell_faults = self.tell_faults.saturating_add(1);
            return Err(Failed);
        }
        Ok(n)
    }

    fn size(&mut self, side: Side) -> Result<u64, Failed>
        ensures ok { IfOk result (λ n. Sizes side n (seen_of self.old) (seen_of self.new)) }
        ensures err { OnErr result (Stays (seen_of self.old) (seen_of self.new)) }
        ensures cause { HasCause DiskRose (faults_of self.old) (faults_of self.new) result }
        ensures planned { IsDue Size self.old → IsErr result }
        ensures failed { IsErr result → IsDue Size self.old }
        ensures faults_rise { OnErr result (faults_of self.new ≡ with_fault Size (faults_of self.old)) }
        ensures starved { starved_of self.new ≡ starved_of self.old }
        ensures called { OneCall Size self.old self.new }
    {
        let due = self.is_due(CallKind::Size);
        self.calls.count(CallKind::Size);
        if due {
            self.disk_faults = self.disk_faults.saturating_add(1);
            return Err(Failed);
        }
        match side {
            Side::Zero => Ok(self.zero.bytes().len() as u64),
            Side::One => Ok(self.one.bytes().len() as u64),
        }
    }

    fn read(&mut self, side: Side, at: u64, buf: &mut [u8]) -> Result<usize, Failed>
        ensures fits { IfOk result (λ n. n ≤ length buf.old) }
        ensures ok { IfOk result (λ n. Reads side at n buf.new (seen_of self.old) (seen_of self.new)) }
        ensures err { OnErr result (Stays (seen_of self.old) (seen_of self.new)) }
        ensures cause { HasCause DiskRose (faults_of self.old) (faults_of self.new) result }
        ensures planned { IsDue Read self.old → IsErr result }
        ensures failed { IsErr result → IsDue Read self.old }
        ensures faults_rise { OnErr result (faults_of self.new ≡ with_fault Read (faults_of self.old)) }
        ensures starved { starved_of self.new ≡ starved_of self.old }
        ensures called { OneCall Read self.old self.new }
    {
        let due = self.is_due(CallKind::Read);
        self.calls.count(CallKind::Read);
        if due {
            self.disk_faults = self.disk_faults.saturating_add(1);
            return Err(Failed);
        }
        match side {
            Side::Zero => Ok(read_at(self.zero.bytes(), at, buf)),
            Side::One => Ok(read_at(self.one.bytes(), at, buf)),
        }
    }

    /// A write that is to fail is made and noted all the same: the layers above take either.
    fn write(&mut self, side: Side, at: u64, bytes: &[u8]) -> Result<(), Failed>
        requires fits { at + length bytes.now ≤ most_side }
        requires within { at ≤ length (disk_of side (seen_of self.old).disks).reads }
        ensures ok { OnOk result (Writes side at bytes.now (seen_of self.old) (seen_of self.new)) }
        ensures err { OnErr result (WritesOrNot side at bytes.now (seen_of self.old) (seen_of self.new)) }
        ensures cause { HasCause DiskRose (faults_of self.old) (faults_of self.new) result }
        ensures noted { Writes side at bytes.now (seen_of self.old) (seen_of self.new) ⊎ Rose (starved_of self.old) (starved_of self.new) }
        ensures planned { IsDue Write self.old → IsErr result }
        ensures starves { starved_of self.old < starved_of self.new → IsErr result × (seen_of self.new ≡ seen_of self.old) }
        ensures failed { IsErr result → IsDue Write self.old ⊎ Rose (starved_of self.old) (starved_of self.new) }
        ensures faults_rise { OnErr result (faults_of self.new ≡ with_fault Write (faults_of self.old)) }
        ensures starved { (starved_of self.new ≡ starved_of self.old) ⊎ (starved_of self.new ≡ one_more (starved_of self.old)) }
        ensures called { OneCall Write self.old self.new }
    {
        let due = self.is_due(CallKind::Write);
        self.calls.count(CallKind::Write);
        if self.note_write(side, at, bytes).is_err() {
            self.starved = self.starved.saturating_add(1);
            self.disk_faults = self.disk_faults.saturating_add(1);
            return Err(Failed);
        }
        if due {
            self.disk_faults = self.disk_faults.saturating_add(1);
            return Err(Failed);
        }
        Ok(())
    }

    /// A sync that is to fail does nothing.
    fn sync(&mut self, side: Side) -> Result<(), Failed>
        ensures ok { OnOk result (Syncs side (seen_of self.old) (seen_of self.new)) }
        ensures err { OnErr result (Stays (seen_of self.old) (seen_of self.new)) }
        ensures cause { HasCause DiskRose (faults_of self.old) (faults_of self.new) result }
        ensures planned { IsDue Sync self.old → IsErr result }
        ensures starves { starved_of self.old < starved_of self.new → IsErr result }
        ensures fed { IsDue Sync self.old → starved_of self.new ≡ starved_of self.old }
        ensures failed { IsErr result → IsDue Sync self.old ⊎ Rose (starved_of self.old) (starved_of self.new) }
        ensures faults_rise { OnErr result (faults_of self.new ≡ with_fault Sync (faults_of self.old)) }
        ensures starved { (starved_of self.new ≡ starved_of self.old) ⊎ (starved_of self.new ≡ one_more (starved_of self.old)) }
        ensures called { OneCall Sync self.old self.new }
    {
        let due = self.is_due(CallKind::Sync);
        self.calls.count(CallKind::Sync);
        if due {
            self.disk_faults = self.disk_faults.saturating_add(1);
            return Err(Failed);
        }
        if self.note_sync(side).is_err() {
            self.starved = self.starved.saturating_add(1);
            self.disk_faults = self.disk_faults.saturating_add(1);
            return Err(Failed);
        }
        Ok(())
    }
}
