//! Expiry, by one rule for keys, user IDs and certifications.

ghost use Rattle.std.specs.Prelude.{◌≡◌};
ghost use Rattle.wot_types.specs.Expiry.{is_expired};

/// Whether what ends then, in seconds since 1970, has ended by now; 0 is never.
pub fn expired(expires: u32, now: u32) -> bool
    ensures { result ≡ is_expired expires now }
{
    expires != 0 && expires <= now
}
