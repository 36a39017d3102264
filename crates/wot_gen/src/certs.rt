//! The certifications on generated keys.

ghost use Rattle.std.specs.Prelude.{◌≡◌, ◌<◌, ℕ, IfOk};
ghost use Rattle.wot_types.specs.Keyring.{key_certs};
ghost use Rattle.wot_types.specs.Sample.{sample_cert, sample_certs, sample_key};

use crate::dates::MADE;
use crate::draws::draw;
use crate::names::key_id;
use std::alloc::Global;
use wot_types::{Cert, Certs, GENERIC, Mem, PackedCert};

/// Certification `c` of key `i`. Its issuer is one of the keys 0 to `i / 3`, rounded down, and so, of every key but the first, never the key itself.
fn cert(alloc: Global, seed: u64, i: u32, c: u8) -> Result<PackedCert, Mem>
    requires { c < 4 }
    ensures { IfOk result (λ cert. cert ≡ sample_cert seed i c) }
{
    let issuer = draw(seed, i, c) % u64::from(i / 3 + 1);
    let made = draw(seed, i, 4 + c) % 100_000_000;
    let (depth, amount) = if draw(seed, i, 8 + c) % 8 == 0 {
        (2, 60)
    } else {
        (0, 0)
    };
    let cert = Cert {
        issuer: key_id(seed, issuer as u32),
        class: GENERIC,
        local: false,
        made: MADE + made as u32,
        expires: 0,
        depth,
        amount,
        scope: None,
        issuer_fpr: None,
    };
    PackedCert::pack(alloc, cert)
}

/// The certifications on key `i`, in the order of its block.
pub fn certs(alloc: Global, seed: u64, i: u32) -> Result<Certs, Mem>
    ensures { IfOk result (λ certs. certs ≡ sample_certs seed i) }
{
    let mut certs = Certs::new(alloc);
    if i == 0 {
        return Ok(certs);
    }
    for c in 0..4 {
        certs.push(cert(alloc, seed, i, c)?)?;
    }
    Ok(certs)
}

/// How many certifications are on key `i`.
pub fn cert_count(i: u32) -> u64
    ensures { (seed : ℕ) → result ≡ key_certs (sample_key seed i) }
{
    if i == 0 { 0 } else { 4 }
}
