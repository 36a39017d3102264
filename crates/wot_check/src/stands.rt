//! Whether a stored row is the one that the others give its key.

ghost use Rattle.std.specs.Prelude.{◌≡◌, ◌≤◌, ◌+◌, ◌*◌, Some, None, is_some};
ghost use Rattle.std.specs.Bool.{Decides};
ghost use Rattle.std.specs.FinMap as map;
ghost use Rattle.wot_types.specs.declared.row.Row.{Row};
ghost use Rattle.wot_types.specs.Keyring.{certs_at};
ghost use Rattle.wot_levels.specs.Given.{given_row};
ghost use Rattle.wot_levels.specs.Standings.{standing_row};
ghost use Rattle.wot_types.specs.Touched.{is_same_row, is_same_standing};
ghost use Rattle.wot_check.specs.Stored.{Stands, row_below};

use std::sync::ledger::Ledger;
use wot_levels::{Asked, Standing, given};
use wot_table::LentState;
use wot_types::{KeyId, Row, Rows, Steps, is_same_scope};

/// Whether a row has this standing.
fn has_standing(row: &Row, standing: &Standing<'_>) -> bool
    ensures { result ≡ is_same_row row.now (standing_row row.now.key row.now.level standing.now) }
{
    row.trust.number() == standing.trust.number()
        && row.left == standing.left
        && is_same_scope(row.scope.as_ref(), standing.scope)
        && row.via == standing.issuer
}

/// Whether the rows of lower levels give a key this row of its own.
fn is_given<L: Ledger>(
    state: &LentState<'_>,
    rows: &Rows,
    row: &Row,
    steps: &mut Steps<L>,
    asked: &mut Asked,
) -> bool
    ensures same { result ≡ is_same_standing (Some row.now) (given_row state.now rows.now row.now.level row.now.key) }
    ensures ticks { steps.new ≤ steps.old + certs_at state.now.keys row.now.key }
    ensures unread { row.now.level ≡ 0 → steps.new ≡ steps.old }
{
    match given(state, rows, row.key, row.level, steps, asked) {
        Some(standing) => has_standing(row, &standing),
        None => false,
    }
}

/// Whether the rows give a key one at some level below a bound.
///
/// The introducers of a level are introducers at each later one. So a key that is given a row at some level is given one at the
/// highest, and two levels tell: 0, which goes by ownertrust, and the highest.
fn is_given_below<L: Ledger>(
    state: &LentState<'_>,
    rows: &Rows,
    id: KeyId,
    bound: u8,
    steps: &mut Steps<L>,
    asked: &mut Asked,
) -> bool
    ensures given { result ≡ is_some (row_below state.now rows.now id bound) }
    ensures ticks { steps.new ≤ steps.old + certs_at state.now.keys id }
    ensures unread { bound ≡ 0 → steps.new ≡ steps.old }
{
    if bound == 0 {
        return false;
    }
    if given(state, rows, id, 0, steps, asked).is_some() {
        return true;
    }
    given(state, rows, id, bound - 1, steps, asked).is_some()
}

/// Whether a stored row is the one that its key is given: at its level, and at none below.
fn is_counted<L: Ledger>(
    state: &LentState<'_>,
    rows: &Rows,
    row: &Row,
    steps: &mut Steps<L>,
    asked: &mut Asked,
) -> bool
    requires stored { map.get rows.now row.now.key ≡ Some row.now }
    ensures stands { Decides result (Stands state.now rows.now row.now.key) }
    ensures ticks { steps.new ≤ steps.old + 2 * certs_at state.now.keys row.now.key }
    ensures unread { row.now.level ≡ 0 → steps.new ≡ steps.old }
{
    if state.options().depth <= row.level {
        return false;
    }
    if is_given_below(state, rows, row.key, row.level, steps, asked) {
        return false;
    }
    is_given(state, rows, row, steps, asked)
}

/// Whether a key's row, or its want of one, is what the rows of the others give it. Its certifications are read twice at most: once where it has no row, and not at all where it has one of level 0.
pub fn row_stands<L: Ledger>(
    state: &LentState<'_>,
    rows: &Rows,
    id: KeyId,
    steps: &mut Steps<L>,
    asked: &mut Asked,
) -> bool
    ensures stands { Decides result (Stands state.now rows.now id) }
    ensures ticks { steps.new ≤ steps.old + 2 * certs_at state.now.keys id }
    ensures without_a_row { map.get rows.now id ≡ None → steps.new ≤ steps.old + certs_at state.now.keys id }
    ensures level_0 { (row : Row) → map.get rows.now id ≡ Some row → row.level ≡ 0 → steps.new ≡ steps.old }
{
    match rows.get(id) {
        Some(row) => is_counted(state, rows, row, steps, asked),
        None => {
            let given = is_given_below(state, rows, id, state.options().depth, steps, asked);
            !given
        }
    }
}
