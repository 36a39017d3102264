//! One key's row, recounted at a level.

ghost use Rattle.std.specs.Prelude.{◌≡◌, ◌≤◌, ◌+◌, ◌==◌, ℕ, false, not, Some, IfOk, if◌then◌else◌};
ghost use Rattle.std.specs.FinMap as map;
ghost use Rattle.wot_types.specs.Keyring.{certs_at};
ghost use Rattle.wot_types.specs.Touched.{is_same_standing};
ghost use Rattle.wot_levels.specs.Given.{given_row};
ghost use Rattle.wot_live.specs.Recounting.{recounted};

use crate::same_row::{has_level, is_lower, is_the_row};
use std::sync::ledger::Ledger;
use wot_levels::{Asked, given_row};
use wot_table::LentState;
use wot_types::{KeyId, Mem, Row, Rows, Steps};

/// Rows after a recount, and whether it changed them.
#[derive(Drop)]
pub struct ChangedRow {
    pub rows: Rows,
    pub changed: bool,
}

/// With this row in place of the key's. Where it is there already, nothing is put.
fn put_row(rows: Rows, row: Row) -> Result<ChangedRow, Mem>
    ensures row { IfOk result (λ new. map.get new.rows row.key ≡ Some row) }
    ensures others { IfOk result (λ new. (x : ℕ) → (row.key == x) ≡ false → map.get new.rows x ≡ map.get rows x) }
    ensures changed { IfOk result (λ new. new.changed ≡ not (is_same_standing (map.get rows row.key) (Some row))) }
{
    if is_the_row(rows.get(row.key), &row) {
        return Ok(ChangedRow {
            rows,
            changed: false,
        });
    }
    Ok(ChangedRow {
        rows: rows.insert(row)?,
        changed: true,
    })
}

/// Without the row of a key that has its own of the level at hand.
fn drop_row(rows: Rows, id: KeyId, own: bool) -> ChangedRow
    ensures rows { result.rows ≡ (if own then map.remove rows id else rows) }
    ensures changed { result.changed ≡ own }
{
    let mut rows = rows;
    if own {
        rows.remove(id);
    }
    ChangedRow { rows, changed: own }
}

/// What a level gives a key takes the place of its row, unless that is of a lower level.
pub fn recount_row<L: Ledger>(
    state: &LentState<'_>,
    rows: Rows,
    id: KeyId,
    level: u8,
    steps: &mut Steps<L>,
    asked: &mut Asked,
) -> Result<ChangedRow, Mem>
    ensures row { IfOk result (λ new. map.get new.rows id ≡ recounted level (map.get rows id) (given_row state.now rows level id)) }
    ensures others { IfOk result (λ new. (x : ℕ) → (id == x) ≡ false → map.get new.rows x ≡ map.get rows x) }
    ensures changed { IfOk result (λ new. new.changed ≡ not (is_same_standing (map.get rows id) (map.get new.rows id))) }
    ensures ticks { steps.new ≤ steps.old + certs_at state.now.keys id }
    ensures unread { level ≡ 0 → steps.new ≡ steps.old }
{
    let kept = rows.get(id);
    if is_lower(kept, level) {
        return Ok(ChangedRow {
            rows,
            changed: false,
        });
    }
    let own = has_level(kept, level);
    match given_row(state, &rows, id, level, steps, asked)? {
        Some(row) => put_row(rows, row),
        None => Ok(drop_row(rows, id, own)),
    }
}
