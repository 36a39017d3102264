//! Reading records.

ghost use Rattle.std.specs.Prelude.{◌≡◌, ◌≢◌, ◌+◌, ◌-◌, ◌^◌, ◌<◌, ◌≤◌, length, slice_index, IfOk, OnErr, IfErr, IsErrOf, None};
ghost use Rattle.std.specs.Int.{from_be_bytes, to_be_bytes, w32};
ghost use Rattle.wot_site.specs.Disk.{disk_of};
ghost use Rattle.wot_site.specs.Seen.{Honestly, IfHonest};
ghost use Rattle.wot_site.specs.Site.{FailsOnlyBy, Stays};
ghost use Rattle.wot_journal.specs.Found.{Finds, GoesOn, IsTruncatedAt};
ghost use Rattle.wot_journal.specs.Range.{IsRange};

use byteorder::{BigEndian, ByteOrder};
use std::alloc::Global;
use thiserror::Error;
use wot_site::{MOST, OPEN, RangeError, Side, Site, read_range};
use wot_types::Text;

/// Why no record was read.
#[derive(Clone, Copy, Debug, PartialEq, Eq, Drop, Error)]
pub enum ReplayError {
    #[error("disk fault")]
    DiskFault,
    /// The record at that place passes the side.
    #[error("short record at {0}")]
    Short(u64),
    #[error("out of memory")]
    Memory,
}

/// What stands at a place of a journal.
#[derive(Debug, Drop)]
pub enum Step {
    /// A record with this payload, and the place of the next one.
    Payload(Text, u64),
    /// A closed gate: the journal's end.
    End,
}

/// Reads the record at a place of a side that has so many bytes.
pub fn next<S: Site>(
    alloc: Global,
    site: &mut S,
    side: Side,
    at: u64,
    size: u64,
) -> Result<Step, ReplayError>
    requires within { at < size }
    requires size { IfHonest (S.seen site.old) (λ s. size ≡ length (disk_of side s.disks).reads) }
    ensures goes_on { IfOk result (GoesOn at size) }
    ensures found { IfOk result (λ step. Honestly (S.seen site.old) (S.seen site.new) (Finds side at step)) }
    ensures stays { OnErr result (Honestly (S.seen site.old) (S.seen site.new) Stays) }
    ensures short { (q : _) → IsErrOf result (ReplayError.Short q) → q ≡ at }
    ensures truncated { (q : _) → IsErrOf result (ReplayError.Short q) → Honestly (S.seen site.old) (S.seen site.new) (IsTruncatedAt side at) }
    ensures cause { FailsOnlyBy ReplayError.DiskFault (S.faults site.old) (S.faults site.new) result }
{
    let gate = match read_part(alloc, site, side, at, 1, at) {
        Ok(gate) => gate,
        Err(e) => return Err(e),
    };
    if gate[0] != OPEN {
        return Ok(Step::End);
    }
    let most = size.min(MOST);
    if most < 6 || most - 6 < at {
        return Err(ReplayError::Short(at));
    }
    let head = match read_part(alloc, site, side, at + 1, 4, at) {
        Ok(head) => head,
        Err(e) => return Err(e),
    };
    let len = length_of(&head);
    if most - 6 - at < len as u64 {
        return Err(ReplayError::Short(at));
    }
    match read_part(alloc, site, side, at + 5, len as usize, at) {
        Ok(payload) => Ok(Step::Payload(Text::from_vec(payload), at + 5 + len as u64)),
        Err(e) => Err(e),
    }
}

// The length that four bytes spell.
fn length_of(head: &[u8]) -> u32
    requires { length head.now ≡ 4 }
    ensures value { result ≡ from_be_bytes w32 head.now }
    ensures spelled { to_be_bytes w32 result ≡ head.now }
{
    BigEndian::read_u32(head)
}

// Reads a part of the record at that place, which lies within the side.
fn read_part<S: Site>(
    alloc: Global,
    site: &mut S,
    side: Side,
    at: u64,
    len: usize,
    place: u64,
) -> Result<Vec<u8>, ReplayError>
    requires fits { at + len ≤ 2 ^ 64 - 1 }
    requires there { IfHonest (S.seen site.old) (λ s. at + len ≤ length (disk_of side s.disks).reads) }
    ensures length { IfOk result (λ bytes. length bytes.items ≡ len) }
    ensures range { IfOk result (λ bytes. Honestly (S.seen site.old) (S.seen site.new) (IsRange side at len bytes.items)) }
    ensures stays { OnErr result (Honestly (S.seen site.old) (S.seen site.new) Stays) }
    ensures short { (q : _) → IsErrOf result (ReplayError.Short q) → q ≡ place }
    ensures never { (q : _) → IsErrOf result (ReplayError.Short q) → S.seen site.old ≡ None }
    ensures cause { FailsOnlyBy ReplayError.DiskFault (S.faults site.old) (S.faults site.new) result }
{
    match read_range(alloc, site, side, at, len) {
        Ok(bytes) => Ok(bytes),
        Err(RangeError::DiskFault) => Err(ReplayError::DiskFault),
        Err(RangeError::Short) => Err(ReplayError::Short(place)),
        Err(RangeError::Memory) => Err(ReplayError::Memory),
    }
}
