//! A state counted from nothing.

ghost use Rattle.std.specs.Prelude.{◌≡◌, ◌≤◌, ◌+◌, ◌*◌, IfOk};
ghost use Rattle.wot_types.specs.Keyring.{cert_total};
ghost use Rattle.wot_types.specs.Levels.{rows_of};
ghost use Rattle.wot_types.specs.Payload.{IsInRange};
ghost use Rattle.wot_levels.specs.Given.{state_of};
ghost use Rattle.wot_live.specs.Counts.{counts_of};

use crate::count_all::all_counts;
use crate::engine::Engine;
use crate::rows_and_counts::RowsAndCounts;
use std::sync::ledger::Ledger;
use wot_levels::{Asked, rows};
use wot_table::{LentState, Table};
use wot_types::{Mem, Options, Steps, Trusts};

/// The table with its index by issuers, where keys are asked whom they certified: without ownertrust nobody introduces, and none is.
fn asked_table(table: Table, trusts: &Trusts) -> Result<Table, Mem>
    ensures { IfOk result (λ new. new ≡ table) }
{
    if trusts.len() == 0 {
        return Ok(table);
    }
    table.indexed()
}

/// The rows of all levels first, then the candidates.
fn rows_and_counts<L: Ledger>(
    state: &LentState<'_>,
    steps: &mut Steps<L>,
    asked: &mut Asked,
) -> Result<RowsAndCounts, Mem>
    ensures rows { IfOk result (λ new. new.rows ≡ rows_of state.now) }
    ensures counts { IfOk result (λ new. new.counts ≡ counts_of state.now) }
    ensures ticks { steps.new ≤ steps.old + (state.now.options.depth + 1) * cert_total state.now.keys }
{
    let rows = rows(state, steps, asked)?;
    let counts = all_counts(state, &rows, steps, asked)?;
    Ok(RowsAndCounts { rows, counts })
}

/// The engine of a state of which nothing is counted: the rows of all levels first, then the candidates.
pub fn count_anew<L: Ledger>(
    table: Table,
    trusts: Trusts,
    date: u32,
    options: Options,
    steps: &mut Steps<L>,
) -> Result<Engine, Mem>
    requires ranges { IsInRange options }
    ensures state { IfOk result (λ new. new ≡ state_of table trusts date options) }
    ensures ticks { steps.new ≤ steps.old + (options.depth + 1) * cert_total table }
{
    let table = asked_table(table, &trusts)?;
    let state = LentState::of(&table, &trusts, date, &options);
    let mut asked = Asked::new(table.alloc());
    let RowsAndCounts { rows, counts } = rows_and_counts(&state, steps, &mut asked)?;
    Ok(Engine {
        table,
        trusts,
        date,
        options,
        rows,
        counts,
    })
}
