//! The counts of listed keys, taken anew.

ghost use Rattle.std.specs.Prelude.{◌≤◌, ◌+◌, nat_eq, IfOk};
ghost use Rattle.std.specs.List.{IsDistinct};
ghost use Rattle.wot_live.specs.Counts.{AreCountedAt};
ghost use Rattle.wot_levels.specs.Frontier.{weight};

use crate::count_key::recount_key;
use crate::counts::Counts;
use crate::worklist::Worklist;
use std::sync::ledger::Ledger;
use wot_levels::Asked;
use wot_table::LentState;
use wot_types::{Mem, Rows, Steps};

/// The counts of all keys of a list, in place of those they had.
pub fn recount<L: Ledger>(
    state: &LentState<'_>,
    rows: &Rows,
    counts: Counts,
    todo: &Worklist,
    steps: &mut Steps<L>,
    asked: &mut Asked,
) -> Result<Counts, Mem>
    ensures counts { IfOk result (AreCountedAt state.now rows.now todo.now counts) }
    ensures distinct { IsDistinct nat_eq todo.now }
    ensures ticks { steps.new ≤ steps.old + weight state.now.keys todo.now }
{
    let mut counts = counts;
    let count = todo.len();
    for i in 0..count {
        counts = recount_key(state, rows, counts, todo.id(i), steps, asked)?;
    }
    Ok(counts)
}
