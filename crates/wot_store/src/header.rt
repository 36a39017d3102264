//! The header of a side.

ghost use Rattle.std.specs.Prelude.{◌≡◌, length, Some, None, slice_index, if◌then◌else◌, ◌==◌};
ghost use Rattle.wot_site.specs.Gate.{open_gate};
ghost use Rattle.wot_store.specs.Base.{header_in};

use byteorder::{BigEndian, ByteOrder};
use wot_site::OPEN;

/// What stands behind the gate of a side that this program wrote.
pub const MAGIC: [u8; 7] = *b"WOTBASE";

/// What the header of a side says behind an open gate.
#[derive(Clone, Copy, Debug, PartialEq, Eq)]
pub struct Header {
    pub has_magic: bool,
    pub epoch: u64,
    pub pages: u64,
}

/// What 24 bytes say; None where their gate is closed.
pub fn header_in(bytes: &[u8]) -> Option<Header>
    requires { length bytes.now ≡ 24 }
    ensures { result ≡ (if slice_index bytes.now 0 == open_gate then Some (header_in bytes.now) else None) }
{
    if bytes[0] != OPEN {
        return None;
    }
    Some(Header {
        has_magic: &bytes[1..8] == MAGIC.as_slice(),
        epoch: BigEndian::read_u64(&bytes[8..16]),
        pages: BigEndian::read_u64(&bytes[16..24]),
    })
}
