//! The calls of the outside, and what each tells of itself.

ghost use Rattle.std.specs.Prelude.{◌≡◌, ◌+◌, ◌<◌, ◌≤◌, Option, length, IfOk, OnOk, OnErr};
ghost use Rattle.wot_types.specs.PagePlaces.{most_side};
ghost use Rattle.wot_site.specs.Seen.{Seen, Faults, Honestly, IfHonest};
ghost use Rattle.wot_site.specs.Disk.{disk_of};
ghost use Rattle.wot_site.specs.Site.{Takes, TakesNothing, Tells, Stays, Sizes, Reads, Writes, WritesOrNot, Syncs, HasCause, TakeRose, TellRose, DiskRose};

use crate::failed::Failed;
use crate::side::Side;

/// The input, the output and the two sides of the store as one object, so that what was told and what a crash
/// may leave have one clock.
pub trait Site {
    /// What an honest site tells of itself. A site that is not honest tells nothing.
    ghost seen: { Self → Option Seen };

    /// How often its calls have failed.
    ghost faults: { Self → Faults };

    /// Moves the next bytes of the input into the front of the buffer and answers how many: 0 only at the
    /// end of the input or for an empty buffer.
    fn take(&mut self, buf: &mut [u8]) -> Result<usize, Failed>
        ensures fits { IfOk result (λ n. n ≤ length buf.old) }
        ensures ok { IfOk result (λ n. Honestly (seen self.old) (seen self.new) (Takes n buf.new)) }
        ensures err { OnErr result (Honestly (seen self.old) (seen self.new) TakesNothing) }
        ensures cause { HasCause TakeRose (faults self.old) (faults self.new) result };

    /// Appends a front of the bytes to what was told and answers its length, at least 1 where there are bytes.
    fn tell(&mut self, bytes: &[u8]) -> Result<usize, Failed>
        ensures fits { IfOk result (λ n. n ≤ length bytes.now) }
        ensures some { IfOk result (λ n. 0 < length bytes.now → 0 < n) }
        ensures ok { IfOk result (λ n. Honestly (seen self.old) (seen self.new) (Tells n bytes.now)) }
        ensures err { OnErr result (Honestly (seen self.old) (seen self.new) Stays) }
        ensures cause { HasCause TellRose (faults self.old) (faults self.new) result };

    /// How many bytes a side has.
    fn size(&mut self, side: Side) -> Result<u64, Failed>
        ensures ok { IfOk result (λ n. Honestly (seen self.old) (seen self.new) (Sizes side n)) }
        ensures err { OnErr result (Honestly (seen self.old) (seen self.new) Stays) }
        ensures cause { HasCause DiskRose (faults self.old) (faults self.new) result };

    /// Reads the bytes of a side from a place on into the front of the buffer and answers how many: 0 only at or
    /// past the end or for an empty buffer.
    fn read(&mut self, side: Side, at: u64, buf: &mut [u8]) -> Result<usize, Failed>
        ensures fits { IfOk result (λ n. n ≤ length buf.old) }
        ensures ok { IfOk result (λ n. Honestly (seen self.old) (seen self.new) (Reads side at n buf.new)) }
        ensures err { OnErr result (Honestly (seen self.old) (seen self.new) Stays) }
        ensures cause { HasCause DiskRose (faults self.old) (faults self.new) result };

    /// Writes over what is there, and past the end. Until the next sync of that side a crash may leave any bytes in the range.
    fn write(&mut self, side: Side, at: u64, bytes: &[u8]) -> Result<(), Failed>
        requires fits { at + length bytes.now ≤ most_side }
        requires within { IfHonest (seen self.old) (λ s. at ≤ length (disk_of side s.disks).reads) }
        ensures ok { OnOk result (Honestly (seen self.old) (seen self.new) (Writes side at bytes.now)) }
        ensures err { OnErr result (Honestly (seen self.old) (seen self.new) (WritesOrNot side at bytes.now)) }
        ensures cause { HasCause DiskRose (faults self.old) (faults self.new) result };

    /// After it a crash leaves of that side what a read gives.
    fn sync(&mut self, side: Side) -> Result<(), Failed>
        ensures ok { OnOk result (Honestly (seen self.old) (seen self.new) (Syncs side)) }
        ensures err { OnErr result (Honestly (seen self.old) (seen self.new) Stays) }
        ensures cause { HasCause DiskRose (faults self.old) (faults self.new) result };
}
