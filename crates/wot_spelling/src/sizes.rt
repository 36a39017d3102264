//! How many bytes a spelling has that is written. A count above 2^64 - 1 is given as 2^64 - 1.

ghost use Rattle.std.specs.Prelude.{◌≡◌, length, sum_by};
ghost use Rattle.std.specs.Option.{option_copied};
ghost use Rattle.wot_types.specs.Payload.{payload};
ghost use Rattle.wot_types.specs.Numbers.{capped};
ghost use Rattle.wot_spelling.specs.Sizes.{cert_size, entry_size, issuer_fpr_size, key_size, payload_size, scope_size, user_size};

use wot_types::{Edit, Entry, Fpr, Key, PackedCert, Scope, User};

/// The bytes of a flag, a class, a depth, an amount, a trust number, the length of a fingerprint, or the kind of an edit.
const BYTE: u64 = 1;

/// The bytes of a number, a date, the length of a text, or the count of a list.
const NUMBER: u64 = 4;

/// The bytes of a key ID, or the seed of a sample.
const LONG: u64 = 8;

/// The bytes of a certification's issuer, class, local mark, two dates, depth and amount.
const CERT: u64 = LONG + 2 * BYTE + 2 * NUMBER + 2 * BYTE;

/// The bytes of a user ID's kind, the lengths of its text and hash, its two dates, its revoked mark, and the count of its certifications.
const USER: u64 = BYTE + 2 * NUMBER + 2 * NUMBER + BYTE + NUMBER;

/// The bytes of the length of a key's fingerprint, its bits, algorithm and two dates, its revoked mark, the length of its capabilities, and the count of its user IDs.
const KEY: u64 = BYTE + 4 * NUMBER + BYTE + 2 * NUMBER;

#[tactic(auto, unfolding(crate::specs::Sizes::scope_size))]
fn scope_size(scope: Option<&Scope>) -> u64
    ensures { result ≡ capped (scope_size (option_copied scope.entry)) }
{
    match scope {
        None => BYTE,
        Some(scope) => (BYTE + NUMBER).saturating_add(scope.as_text().as_bytes().len() as u64),
    }
}

#[tactic(auto, unfolding(crate::specs::Sizes::issuer_fpr_size))]
fn issuer_fpr_size(named: &Option<Fpr>) -> u64
    ensures { result ≡ capped (issuer_fpr_size named.now) }
{
    match named {
        None => BYTE,
        Some(fpr) => 2 * BYTE + fpr.as_bytes().len() as u64,
    }
}

#[tactic(auto, unfolding(crate::specs::Sizes::cert_size))]
fn cert_size(cert: &PackedCert) -> u64
    ensures { result ≡ capped (cert_size cert.now) }
{
    CERT.saturating_add(scope_size(cert.scope()))
        .saturating_add(issuer_fpr_size(&cert.issuer_fpr()))
}

fn certs_size(certs: &[PackedCert]) -> u64
    ensures { result ≡ capped (sum_by cert_size certs.now) }
{
    let mut size = 0u64;
    for cert in certs {
        size = size.saturating_add(cert_size(cert));
    }
    size
}

#[tactic(auto, unfolding(crate::specs::Sizes::user_size))]
fn user_size(user: &User) -> u64
    ensures { result ≡ capped (user_size user.now) }
{
    USER.saturating_add(user.text.as_bytes().len() as u64)
        .saturating_add(user.hash.len() as u64)
        .saturating_add(certs_size(user.certs.as_slice()))
}

fn users_size(users: &[User]) -> u64
    ensures { result ≡ capped (sum_by user_size users.now) }
{
    let mut size = 0u64;
    for user in users {
        size = size.saturating_add(user_size(user));
    }
    size
}

#[tactic(auto, unfolding(crate::specs::Sizes::key_size))]
fn key_size(key: &Key) -> u64
    ensures { result ≡ capped (key_size key.now) }
{
    KEY.saturating_add(key.fpr.as_bytes().len() as u64)
        .saturating_add(key.caps.as_bytes().len() as u64)
        .saturating_add(users_size(key.users.as_slice()))
}

fn keys_size(keys: &[Key]) -> u64
    ensures { result ≡ capped (sum_by key_size keys.now) }
{
    let mut size = 0u64;
    for key in keys {
        size = size.saturating_add(key_size(key));
    }
    size
}

#[tactic(auto, unfolding(crate::specs::Sizes::entry_size))]
fn entry_size(entry: &Entry) -> u64
    ensures { result ≡ capped (entry_size entry.now) }
{
    (BYTE + BYTE).saturating_add(entry.fpr.as_bytes().len() as u64)
}

fn entries_size(entries: &[Entry]) -> u64
    ensures { result ≡ capped (sum_by entry_size entries.now) }
{
    let mut size = 0u64;
    for entry in entries {
        size = size.saturating_add(entry_size(entry));
    }
    size
}

#[tactic(auto, unfolding(crate::specs::Sizes::payload_size))]
fn edit_size(edit: &Edit) -> u64
    ensures { result ≡ capped (payload_size edit.now) }
{
    match edit {
        Edit::Import(keys) => (BYTE + NUMBER).saturating_add(keys_size(keys.as_slice())),
        Edit::Set(fpr, _) => 3 * BYTE + fpr.as_bytes().len() as u64,
        Edit::Ownertrust(entries) => (BYTE + NUMBER).saturating_add(entries_size(
            entries.as_slice(),
        )),
        Edit::Flag(fpr, _) => 3 * BYTE + fpr.as_bytes().len() as u64,
        Edit::Date(_) => BYTE + NUMBER,
        Edit::Delete(_) => BYTE + LONG,
        Edit::Options(_) => 2 * BYTE + 2 * NUMBER + 2 * BYTE,
        Edit::Sample(_, _) => BYTE + LONG + NUMBER,
    }
}

/// How many bytes the payload of an edit has, counted without making it; a count above 2^64 - 1 is given as that.
#[tactic(auto, using(crate::proofs::SizeLaws::payload_is))]
pub fn payload_length(edit: &Edit) -> u64
    ensures counted { result ≡ capped (length (payload edit.now)) }
{
    edit_size(edit)
}
