//! Generated keys.

ghost use Rattle.std.specs.Prelude.{◌≡◌, ◌<◌, ◌∷◌, [], ℕ, IfOk};
ghost use Rattle.wot_types.specs.Sample.{sample_key, sample_user};
ghost use Rattle.wot_types.specs.Totals.{key_text};
ghost use Rattle.wot_types.specs.WellFormed.{IsWellFormed};

use crate::certs::certs;
use crate::dates::{MADE, expires};
use crate::names::{fpr, text, text_len};
use std::alloc::Global;
use wot_types::{Caps, Key, Mem, User, UserHash, UserKind, Users};

/// The user IDs of key `i`: one.
fn users(alloc: Global, seed: u64, i: u32) -> Result<Users, Mem>
    ensures { IfOk result (λ users. users ≡ sample_user seed i ∷ []) }
{
    let mut users = Users::new(alloc);
    users.push(User {
        kind: UserKind::Uid,
        text: text(alloc, i)?,
        hash: UserHash::from_bytes(alloc, b"")?,
        made: MADE,
        expires: 0,
        revoked: false,
        certs: certs(alloc, seed, i)?,
    })?;
    Ok(users)
}

/// Key `i` of the `n` keys of a seed.
pub fn key(alloc: Global, seed: u64, i: u32, n: u32) -> Result<Key, Mem>
    requires { i < n }
    ensures made { IfOk result (λ key. key ≡ sample_key seed i) }
    ensures well_formed { IfOk result IsWellFormed }
{
    Ok(Key {
        fpr: fpr(seed, i),
        bits: 255,
        algo: 22,
        made: MADE,
        expires: expires(i),
        revoked: i % 97 == 96,
        caps: Caps::from_bytes(alloc, b"scSC")?,
        users: users(alloc, seed, i)?,
    })
}

/// How many bytes key `i` adds to what the limit of a keyring's texts counts: its capabilities and its user ID's text.
pub fn text_size(i: u32) -> u64
    ensures { (seed : ℕ) → result ≡ key_text (sample_key seed i) }
{
    4 + text_len(i)
}
