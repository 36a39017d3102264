//! Reading bytes of a side.

ghost use Rattle.std.specs.Prelude.{◌≡◌, ◌+◌, ◌-◌, ◌^◌, ◌<◌, ◌≤◌, length, IfOk, OnErr, IsErrOf};
ghost use Rattle.wot_site.specs.Disk.{disk_of};
ghost use Rattle.wot_site.specs.Seen.{Honestly};
ghost use Rattle.wot_site.specs.Site.{FailsOnlyBy, Stays};
ghost use Rattle.wot_site.specs.Reading.{IsRange, IsShort};

use crate::failed::Failed;
use crate::side::Side;
use crate::site::Site;
use std::alloc::Global;

// How many bytes are read at most in one call.
const PIECE: usize = 4096;

/// Why bytes of a side could not be read.
#[derive(Clone, Copy, Debug, PartialEq, Eq)]
pub enum RangeError {
    DiskFault,
    /// The side ends before them.
    Short,
    Memory,
}

/// Reads so many bytes of a side from a place on.
pub fn read_range<S: Site>(
    alloc: Global,
    site: &mut S,
    side: Side,
    at: u64,
    len: usize,
) -> Result<Vec<u8>, RangeError>
    requires { at + len ≤ 2 ^ 64 - 1 }
    ensures length { IfOk result (λ bytes. length bytes.items ≡ len) }
    ensures range { IfOk result (λ bytes. Honestly (S.seen site.old) (S.seen site.new) (IsRange side at len bytes.items)) }
    ensures stays { OnErr result (Honestly (S.seen site.old) (S.seen site.new) Stays) }
    ensures short { IsErrOf result RangeError.Short → Honestly (S.seen site.old) (S.seen site.new) (IsShort side at len) }
    ensures cause { FailsOnlyBy RangeError.DiskFault (S.faults site.old) (S.faults site.new) result }
{
    let mut bytes = Vec::new(alloc);
    let mut buf = [0u8; PIECE];
    while bytes.len() < len {
        let n = match site.read(side, at + bytes.len() as u64, &mut buf) {
            Ok(n) => n,
            Err(Failed) => return Err(RangeError::DiskFault),
        };
        if n == 0 {
            return Err(RangeError::Short);
        }
        let fits = n.min(len - bytes.len());
        if bytes.extend_from_slice(&buf[..fits]).is_err() {
            return Err(RangeError::Memory);
        }
    }
    Ok(bytes)
}
