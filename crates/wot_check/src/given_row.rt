//! A key's row as the stored rows of lower levels give it.

ghost use Rattle.std.specs.Prelude.{◌≡◌, ◌≤◌, IfOk};
ghost use Rattle.std.specs.FinMap as map;
ghost use Rattle.wot_levels.specs.Given.{given_row};
ghost use Rattle.wot_check.specs.Stored.{IsFaultAt, counted_row};

use crate::fault::RowFault;
use std::sync::ledger::Ledger;
use wot_levels::{Asked, given_row};
use wot_table::LentState;
use wot_types::{KeyId, Mem, Row, Rows, Steps};

/// The row that the stored rows give a key, level by level.
pub fn counted_row<L: Ledger>(
    state: &LentState<'_>,
    rows: &Rows,
    id: KeyId,
    steps: &mut Steps<L>,
    asked: &mut Asked,
) -> Result<Option<Row>, Mem>
    ensures { IfOk result (λ row. row ≡ counted_row state.now rows.now id) }
{
    for level in 0..state.options().depth {
        let row = given_row(state, rows, id, level, steps, asked)?;
        if row.is_some() {
            return Ok(row);
        }
    }
    Ok(None)
}

fn stored_row(rows: &Rows, id: KeyId) -> Result<Option<Row>, Mem>
    ensures { IfOk result (λ row. row ≡ map.get rows.now id) }
{
    match rows.get(id) {
        Some(row) => Ok(Some(row.clone()?)),
        None => Ok(None),
    }
}

/// Both rows of a key.
pub fn fault_at<L: Ledger>(
    state: &LentState<'_>,
    rows: &Rows,
    id: KeyId,
    steps: &mut Steps<L>,
    asked: &mut Asked,
) -> Result<RowFault, Mem>
    ensures { IfOk result (IsFaultAt state.now rows.now id) }
{
    Ok(RowFault {
        key: id,
        stored: stored_row(rows, id)?,
        counted: counted_row(state, rows, id, steps, asked)?,
    })
}
