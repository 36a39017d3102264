//! What is tested of the values that were read.

ghost use Rattle.std.specs.Prelude.{◌≡◌, ◌==◌, ◌&&◌, not, IfOk};
ghost use Rattle.std.specs.Option.{option_copied};
ghost use Rattle.std.specs.List.{list_all};
ghost use Rattle.wot_types.specs.Ownertrust.{is_unset, kept_of};
ghost use Rattle.wot_types.specs.Records.{is_capability, is_hash_byte};
ghost use Rattle.wot_spelling.specs.Stored.{are_rising_rows, are_stored};
ghost use Rattle.wot_spelling.specs.Checks.{are_rising_entries, are_settable, are_distinct, are_importable, has_few_certs, is_kept_scope, is_cert, is_in_range, is_marked_once, is_rising, is_sample_count, is_user, is_well_formed};

use std::alloc::Global;
use wot_marks::{Marks, add_mark, is_among_marked};
use wot_types::{
    Entry, Key, KeyId, LEAST_COMPLETES, LEAST_DEPTH, LEAST_LEVEL, LEAST_MARGINALS, MOST_CERTS,
    MOST_LEVEL, MOST_SAMPLE, MOST_SCOPE, MOST_USERS, Mem, Options, PackedCert, Row, Scope, User,
    is_capability, is_hash_byte, is_kept_class,
};

fn is_kept_scope(scope: Option<&Scope>) -> bool
    ensures { result ≡ is_kept_scope (option_copied scope.entry) }
{
    match scope {
        None => true,
        Some(scope) => matches!(scope.as_text().as_bytes().len(), 1..=MOST_SCOPE),
    }
}

#[tactic(auto, unfolding(crate::specs::Checks::is_cert))]
fn is_cert(id: KeyId, cert: &PackedCert) -> bool
    ensures { result ≡ is_cert id cert.now }
{
    cert.issuer() != id && is_kept_class(cert.class()) && is_kept_scope(cert.scope())
}

fn is_hash(bytes: &[u8]) -> bool
    ensures { result ≡ list_all is_hash_byte bytes.now }
{
    bytes.iter().all(|b| is_hash_byte(*b))
}

fn are_capabilities(bytes: &[u8]) -> bool
    ensures { result ≡ list_all is_capability bytes.now }
{
    bytes.iter().all(|b| is_capability(*b))
}

fn are_certs(id: KeyId, certs: &[PackedCert]) -> bool
    ensures { result ≡ list_all (is_cert id) certs.now }
{
    certs.iter().all(|cert| is_cert(id, cert))
}

#[tactic(auto, unfolding(crate::specs::Checks::is_user))]
fn is_user(id: KeyId, user: &User) -> bool
    ensures { result ≡ is_user id user.now }
{
    let mut room = [0u8; 40];
    is_hash(user.hash.as_bytes(&mut room)) && are_certs(id, user.certs.as_slice())
}

fn are_users(id: KeyId, users: &[User]) -> bool
    ensures { result ≡ list_all (is_user id) users.now }
{
    users.iter().all(|user| is_user(id, user))
}

fn are_unmarked(users: &[User]) -> bool
    ensures { result ≡ list_all (λ user. not user.revoked) users.now }
{
    users.iter().all(|user| !user.revoked)
}

/// Whether no two agree in kind, text and hash.
#[tactic(auto, unfolding(crate::specs::Checks::are_distinct))]
fn are_distinct(alloc: Global, users: &[User]) -> Result<bool, Mem>
    ensures { IfOk result (λ distinct. distinct ≡ are_distinct users.now) }
{
    match users {
        [] | [_] => Ok(true),
        [user, other] => Ok(!user.is_same(other)),
        _ => are_found_once(alloc, users),
    }
}

/// The same, by marks: each is looked for among the later ones, from the last on.
fn are_found_once(alloc: Global, users: &[User]) -> Result<bool, Mem>
    ensures { IfOk result (λ distinct. distinct ≡ are_distinct users.now) }
{
    let mut marks = Marks::new(alloc);
    let mut place = users.len();
    while place > 0 {
        place -= 1;
        let user = &users[place];
        if is_among_marked(alloc, &marks, &users[place + 1..], user)? {
            return Ok(false);
        }
        add_mark(alloc, &mut marks, user)?;
    }
    Ok(true)
}

#[tactic(auto, unfolding(crate::specs::Checks::has_few_certs))]
fn has_few_certs(key: &Key) -> bool
    ensures { result ≡ has_few_certs key.now }
{
    let mut room = MOST_CERTS as usize;
    for user in key.users.as_slice() {
        match room.checked_sub(user.certs.len()) {
            Some(left) => room = left,
            None => return false,
        }
    }
    true
}

#[tactic(auto, unfolding(crate::specs::Checks::is_marked_once))]
fn is_marked_once(key: &Key) -> bool
    ensures { result ≡ is_marked_once key.now }
{
    !key.revoked || are_unmarked(key.users.as_slice())
}

#[tactic(auto, unfolding(crate::specs::Checks::is_well_formed))]
fn is_well_formed(alloc: Global, key: &Key) -> Result<bool, Mem>
    ensures { IfOk result (λ well_formed. well_formed ≡ is_well_formed key.now) }
{
    let id = key.fpr.key_id();
    Ok(
        are_capabilities(key.caps.as_bytes())
            && key.users.len() <= MOST_USERS
            && has_few_certs(key)
            && are_distinct(alloc, key.users.as_slice())?
            && are_users(id, key.users.as_slice())
            && is_marked_once(key),
    )
}

fn are_well_formed(alloc: Global, keys: &[Key]) -> Result<bool, Mem>
    ensures { IfOk result (λ well_formed. well_formed ≡ list_all is_well_formed keys.now) }
{
    let mut left = keys;
    while let [key, rest @ ..] = left {
        if !is_well_formed(alloc, key)? {
            return Ok(false);
        }
        left = rest;
    }
    Ok(true)
}

#[tactic(auto, unfolding(crate::specs::Checks::is_rising))]
fn is_rising(keys: &[Key]) -> bool
    ensures { result ≡ is_rising keys.now }
{
    let mut left = keys;
    while let [key, rest @ ..] = left {
        if let [next, ..] = rest {
            if key.fpr.key_id() >= next.fpr.key_id() {
                return false;
            }
        }
        left = rest;
    }
    true
}

#[tactic(auto, unfolding(crate::specs::Checks::are_importable))]
pub fn are_importable(alloc: Global, keys: &[Key]) -> Result<bool, Mem>
    ensures { IfOk result (λ importable. importable ≡ are_importable keys.now) }
{
    Ok(are_well_formed(alloc, keys)? && is_rising(keys))
}

#[tactic(auto, unfolding(crate::specs::Checks::is_in_range))]
pub fn is_in_range(options: &Options) -> bool
    ensures { result ≡ is_in_range options.now }
{
    options.completes >= LEAST_COMPLETES
        && options.marginals >= LEAST_MARGINALS
        && options.depth >= LEAST_DEPTH
        && matches!(options.level, LEAST_LEVEL..=MOST_LEVEL)
}

#[tactic(auto, unfolding(crate::specs::Checks::is_sample_count))]
pub fn is_sample_count(count: u32) -> bool
    ensures { result ≡ is_sample_count count }
{
    (1..=MOST_SAMPLE).contains(&count)
}

fn are_set(entries: &[Entry]) -> bool
    ensures { result ≡ list_all (λ entry. not (is_unset (kept_of entry))) entries.now }
{
    entries.iter().all(|entry| !entry.kept().is_unset())
}

#[tactic(auto, unfolding(crate::specs::Checks::are_rising_entries))]
fn are_rising_entries(entries: &[Entry]) -> bool
    ensures { result ≡ are_rising_entries entries.now }
{
    let mut left = entries;
    while let [entry, rest @ ..] = left {
        if let [next, ..] = rest {
            if !entry.fpr.cmp(&next.fpr).is_lt() {
                return false;
            }
        }
        left = rest;
    }
    true
}

#[tactic(auto, unfolding(crate::specs::Checks::are_settable))]
pub fn are_settable(entries: &[Entry]) -> bool
    ensures { result ≡ are_settable entries.now }
{
    are_set(entries) && are_rising_entries(entries)
}

fn have_scopes(rows: &[Row]) -> bool
    ensures { result ≡ list_all (λ row. is_kept_scope row.scope) rows.now }
{
    rows.iter().all(|row| is_kept_scope(row.scope.as_ref()))
}

#[tactic(auto, unfolding(crate::specs::Stored::are_rising_rows))]
fn are_rising_rows(rows: &[Row]) -> bool
    ensures { result ≡ are_rising_rows rows.now }
{
    let mut left = rows;
    while let [row, rest @ ..] = left {
        if let [next, ..] = rest {
            if row.key >= next.key {
                return false;
            }
        }
        left = rest;
    }
    true
}

#[tactic(auto, unfolding(crate::specs::Stored::are_stored))]
pub fn are_stored(rows: &[Row]) -> bool
    ensures { result ≡ are_stored rows.now }
{
    have_scopes(rows) && are_rising_rows(rows)
}
