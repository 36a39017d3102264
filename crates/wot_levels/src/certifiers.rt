//! The levels at which a key's certifiers stand.

ghost use Rattle.std.specs.Prelude.{◌≡◌, ◌≤◌, ◌+◌, ◌==◌, ◌||◌, ℕ, true, IfOk, IfSome, length};
ghost use Rattle.std.specs.List.{list_any};
ghost use Rattle.std.specs.Option.{option_copied};
ghost use Rattle.wot_types.specs.Indexes.{has_cert_by, key_issuers};
ghost use Rattle.wot_types.specs.Keyring.{certs_at, key_certs};
ghost use Rattle.wot_types.specs.Touched.{is_certified_at, is_certified_by};
ghost use Rattle.wot_levels.specs.Certifiers.{StandsAt, has_issuer, has_issuer_at, is_level_of, is_row_of, stands_at};

use crate::heads::certs_in;
use std::alloc::Global;
use std::sync::ledger::Ledger;
use wot_table::{Keyblock, Table};
use wot_types::{KeyId, Mem, PackedPlaced, Row, Rows, Steps};

/// The levels and that of a row, if there is one.
fn with_level(levels: Vec<u8>, row: Option<&Row>) -> Result<Vec<u8>, Mem>
    ensures there { IfOk result (λ new. IfSome (option_copied row.entry) (λ r. is_level_of new.items r.level ≡ true)) }
    ensures kept { IfOk result (λ new. (n : ℕ) → is_level_of levels.items n ≡ true → is_level_of new.items n ≡ true) }
    ensures only { IfOk result (λ new. (n : ℕ) → is_level_of new.items n ≡ true → (is_level_of levels.items n || is_row_of n (option_copied row.entry)) ≡ true) }
{
    let mut levels = levels;
    let Some(row) = row else {
        return Ok(levels);
    };
    if levels.as_slice().contains(&row.level) {
        return Ok(levels);
    }
    levels.push(row.level)?;
    Ok(levels)
}

/// The levels and those of the issuers of these certifications.
fn with_issuers(levels: Vec<u8>, certs: &[PackedPlaced], rows: &Rows) -> Result<Vec<u8>, Mem>
    ensures there { IfOk result (λ new. (y : ℕ) → has_issuer certs.now y ≡ true → StandsAt rows.now new.items y) }
    ensures kept { IfOk result (λ new. (n : ℕ) → is_level_of levels.items n ≡ true → is_level_of new.items n ≡ true) }
    ensures only { IfOk result (λ new. (n : ℕ) → is_level_of new.items n ≡ true → (is_level_of levels.items n || has_issuer_at certs.now rows.now n) ≡ true) }
{
    let mut levels = levels;
    for placed in certs {
        levels = with_level(levels, rows.get(placed.issuer()))?;
    }
    Ok(levels)
}

fn levels_in<L: Ledger>(
    alloc: Global,
    keyblock: &Keyblock<'_>,
    users: u32,
    rows: &Rows,
    steps: &mut Steps<L>,
) -> Result<Vec<u8>, Mem>
    requires users { users ≡ length keyblock.now.1.users }
    ensures there { IfOk result (λ levels. (y : ℕ) → list_any (λ n. n == y) (key_issuers keyblock.now.1) ≡ true → StandsAt rows.now levels.items y) }
    ensures only { IfOk result (λ levels. (n : ℕ) → is_level_of levels.items n ≡ true → is_certified_by (stands_at rows.now n) keyblock.now.1 ≡ true) }
    ensures ticks { steps.new ≤ steps.old + key_certs keyblock.now.1 }
{
    let mut levels = Vec::new(alloc);
    for user in 0..users {
        let certs = certs_in(keyblock, user, steps);
        levels = with_issuers(levels, certs, rows)?;
    }
    Ok(levels)
}

/// The levels of the rows of those who certified a key, each once; whether the certifications count is not asked.
pub fn certifier_levels<L: Ledger>(
    table: &Table,
    rows: &Rows,
    id: KeyId,
    steps: &mut Steps<L>,
) -> Result<Vec<u8>, Mem>
    ensures there { IfOk result (λ levels. (y : ℕ) → has_cert_by table.now y id ≡ true → StandsAt rows.now levels.items y) }
    ensures only { IfOk result (λ levels. (n : ℕ) → is_level_of levels.items n ≡ true → is_certified_at table.now (stands_at rows.now n) id ≡ true) }
    ensures ticks { steps.new ≤ steps.old + certs_at table.now id }
{
    match table.keyblock(id) {
        None => Ok(Vec::new(table.alloc())),
        Some(keyblock) => levels_in(table.alloc(), &keyblock, keyblock.key().users, rows, steps),
    }
}
