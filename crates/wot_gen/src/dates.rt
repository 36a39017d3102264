//! The dates of generated keys, in seconds since 1970.

ghost use Rattle.std.specs.Prelude.{◌≡◌, ◌==◌, ◌%◌, if◌then◌else◌};

/// When keys and their user IDs were made; the certifications on them aren't earlier.
pub const MADE: u32 = 1_600_000_000;

/// When key `i` ends: each fiftieth does, and no other.
pub fn expires(i: u32) -> u32
    ensures { result ≡ if i % 50 == 49 then 1700000000 else 0 }
{
    if i % 50 == 49 { 1_700_000_000 } else { 0 }
}
