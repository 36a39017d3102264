//! The key IDs, the fingerprints and the texts of generated keys.

ghost use Rattle.std.specs.Prelude.{◌≡◌, ◌≤◌, IfOk, length};
ghost use Rattle.std.specs.Fmt.{decimal};
ghost use Rattle.wot_types.specs.Fingerprint.{key_id_of};
ghost use Rattle.wot_types.specs.Sample.{sample_fpr, sample_id, sample_text};

use std::alloc::Global;
use wot_types::{Fpr, KeyId, Mem, Text};

/// The key ID of key `i`: the low half of the seed, and then the key's number.
pub fn key_id(seed: u64, i: u32) -> KeyId
    ensures { result ≡ sample_id seed i }
{
    KeyId((seed << 32) + u64::from(i))
}

/// The fingerprint of key `i`, which ends in its key ID.
pub fn fpr(seed: u64, i: u32) -> Fpr
    ensures made { result ≡ sample_fpr seed i }
    ensures ends_in_key_id { key_id_of result ≡ sample_id seed i }
{
    let mut bytes = [0u8; 20];
    bytes[..8].copy_from_slice(&seed.to_be_bytes());
    bytes[12..].copy_from_slice(&key_id(seed, i).0.to_be_bytes());
    Fpr::from_bytes(&bytes).unwrap()
}

/// The text of the user ID of key `i`.
pub fn text(alloc: Global, i: u32) -> Result<Text, Mem>
    ensures { IfOk result (λ text. text ≡ sample_text i) }
{
    let text = format!(in alloc; "Key {i} <k{i}@d{}.example>", i % 7)?;
    Ok(Text::from_vec(text.into_bytes()))
}

/// How many bytes that text has.
pub fn text_len(i: u32) -> u64
    ensures value { result ≡ length (sample_text i) }
    ensures short { result ≤ 39 }
{
    19 + 2 * digits(i)
}

/// How many decimal digits a number has.
fn digits(n: u32) -> u64
    ensures value { result ≡ length (decimal n) }
    ensures few { result ≤ 10 }
{
    u64::from(n.checked_ilog10().unwrap_or(0)) + 1
}
