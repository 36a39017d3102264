//! The one certification of an issuer on a user ID that decides.

ghost use Rattle.std.specs.Prelude.{◌≡◌, ℕ};
ghost use Rattle.std.specs.Option.{option_copied};
ghost use Rattle.wot_types.specs.Arrangement.{IsRising};
ghost use Rattle.wot_types.specs.Selection.{is_below_level, is_disregarded, is_in_force, is_other_fpr, names_another, usable};
ghost use Rattle.wot_select.specs.Run.{IsBy};

use crate::expiry::expired;
use wot_types::{Fpr, GENERIC, PERSONA, POSITIVE, PackedPlaced, REVOCATION};

fn is_below_level(level: u8, placed: &PackedPlaced) -> bool
    ensures { result ≡ is_below_level level placed.now.cert }
{
    let class = placed.class();
    matches!(class, PERSONA..=POSITIVE) && class - GENERIC < level
}

/// Whether it names a fingerprint other than this one.
fn is_other_fpr(fpr: &Fpr, named: &Option<Fpr>) -> bool
    ensures { result ≡ is_other_fpr fpr.now named.now }
{
    match named {
        None => false,
        Some(named) => named.as_bytes() != fpr.as_bytes(),
    }
}

/// Whether it names a fingerprint other than that of the key of its issuer's key ID, where there is one.
fn names_another(fpr: Option<&Fpr>, placed: &PackedPlaced) -> bool
    ensures { result ≡ names_another (option_copied fpr.entry) placed.now.cert }
{
    match fpr {
        None => false,
        Some(fpr) => is_other_fpr(fpr, &placed.issuer_fpr()),
    }
}

fn is_disregarded(level: u8, fpr: Option<&Fpr>, placed: &PackedPlaced) -> bool
    ensures { result ≡ is_disregarded level (option_copied fpr.entry) placed.now.cert }
{
    is_below_level(level, placed) || names_another(fpr, placed)
}

fn is_in_force(now: u32, placed: &PackedPlaced) -> bool
    ensures { result ≡ is_in_force now placed.now }
{
    placed.class() != REVOCATION && !expired(placed.expires(), now)
}

/// Of a run of one issuer's certifications the one that decides, and None where there is none or it isn't in force.
/// Classes 0x11 to 0x13 below 0x10 + `level` are disregarded: above level 3 all three are. So is a certification that names a fingerprint
/// other than `issuer`, that of the keyring's key of that key ID; without such a key none is disregarded for its fingerprint.
pub fn usable<'a>(
    run: &'a [PackedPlaced],
    now: u32,
    level: u8,
    issuer: Option<&Fpr>,
) -> Option<&'a PackedPlaced>
    requires rising { IsRising run.now }
    ensures { (id : ℕ) → IsBy id run.now → option_copied result ≡ usable now level (option_copied issuer.entry) id run.now }
{
    let mut rest = run;
    while let Some((placed, before)) = rest.split_last() {
        if !is_disregarded(level, issuer, placed) {
            // An older one is never fallen back to.
            return if is_in_force(now, placed) {
                Some(placed)
            } else {
                None
            };
        }
        rest = before;
    }
    None
}
