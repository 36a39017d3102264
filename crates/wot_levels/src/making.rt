//! Rows made of standings, and put among others.

ghost use Rattle.std.specs.Prelude.{◌≡◌, ◌≤◌, ◌+◌, IfOk, IfSome, option_map};
ghost use Rattle.std.specs.FinMap as map;
ghost use Rattle.std.specs.Option.{option_copied};
ghost use Rattle.wot_types.specs.Keyring.{certs_at};
ghost use Rattle.wot_levels.specs.Given.{given_row};
ghost use Rattle.wot_levels.specs.Standings.{standing_row};
ghost use Rattle.wot_levels.specs.Walk.{with_found};

use crate::standing::{Standing, given};
use std::sync::ledger::Ledger;
use wot_regex::Asked;
use wot_table::LentState;
use wot_types::{KeyId, Mem, Row, Rows, Scope, Steps};

fn copy_scope(scope: Option<&Scope>) -> Result<Option<Scope>, Mem>
    ensures { IfOk result (λ copy. copy ≡ option_copied scope.entry) }
{
    match scope {
        Some(scope) => Ok(Some(scope.clone()?)),
        None => Ok(None),
    }
}

fn row_of(id: KeyId, level: u8, standing: &Standing<'_>) -> Result<Row, Mem>
    ensures { IfOk result (λ row. row ≡ standing_row id level standing.now) }
{
    Ok(Row {
        key: id,
        level,
        trust: standing.trust,
        left: standing.left,
        scope: copy_scope(standing.scope)?,
        via: standing.issuer,
    })
}

/// The row that a standing makes at a level, if there is one.
fn row_if(id: KeyId, level: u8, standing: &Option<Standing<'_>>) -> Result<Option<Row>, Mem>
    ensures row { IfOk result (λ row. row ≡ option_map (standing_row id level) standing.now) }
    ensures own { IfOk result (λ row. IfSome row (λ r. r.key ≡ id)) }
{
    match standing {
        Some(standing) => Ok(Some(row_of(id, level, standing)?)),
        None => Ok(None),
    }
}

/// The row that a level gives a key over these rows.
pub fn given_row<L: Ledger>(
    state: &LentState<'_>,
    rows: &Rows,
    id: KeyId,
    level: u8,
    steps: &mut Steps<L>,
    asked: &mut Asked,
) -> Result<Option<Row>, Mem>
    ensures row { IfOk result (λ row. row ≡ given_row state.now rows.now level id) }
    ensures own { IfOk result (λ row. IfSome row (λ r. r.key ≡ id)) }
    ensures ticks { steps.new ≤ steps.old + certs_at state.now.keys id }
    ensures unread { level ≡ 0 → steps.new ≡ steps.old }
{
    let standing = given(state, rows, id, level, steps, asked);
    row_if(id, level, &standing)
}

/// The rows and that which a standing makes at a level.
pub fn with_row(rows: Rows, id: KeyId, level: u8, standing: &Standing<'_>) -> Result<Rows, Mem>
    ensures { IfOk result (λ new. new ≡ map.insert rows id (standing_row id level standing.now)) }
{
    rows.insert(row_of(id, level, standing)?)
}

/// The rows and that which a standing makes at a level, if there is one.
pub fn with_row_if(
    rows: Rows,
    id: KeyId,
    level: u8,
    standing: &Option<Standing<'_>>,
) -> Result<Rows, Mem>
    ensures { IfOk result (λ new. new ≡ with_found rows id (option_map (standing_row id level) standing.now)) }
{
    match standing {
        Some(standing) => with_row(rows, id, level, standing),
        None => Ok(rows),
    }
}
