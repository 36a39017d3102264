//! The ownertrust of generated keys.

ghost use Rattle.std.specs.Prelude.{◌≡◌, ◌<◌};
ghost use Rattle.wot_types.specs.Sample.{sample_entry, sample_trust};

use crate::draws::draw;
use crate::names::fpr;
use wot_types::{Entry, Trust};

/// The ownertrust of key `i`: ultimate for the first key, and drawn for each other.
fn trust(seed: u64, i: u32) -> Option<Trust>
    ensures { result ≡ sample_trust seed i }
{
    if i == 0 {
        return Some(Trust::Ultimate);
    }
    match draw(seed, i, 12) % 4 {
        0 => Some(Trust::Full),
        3 => None,
        _ => Some(Trust::Marginal),
    }
}

/// The ownertrust entry of key `i` of the `n` keys of a seed, and None where it has none.
pub fn entry(seed: u64, i: u32, n: u32) -> Option<Entry>
    requires { i < n }
    ensures { result ≡ sample_entry seed i }
{
    trust(seed, i).map(|trust| Entry {
        fpr: fpr(seed, i),
        trust,
        disabled: false,
    })
}
