//! When the rows of newly listed keys may change.

ghost use Rattle.std.specs.Prelude.{◌≡◌, ◌≤◌, ◌+◌, ◌∷◌, [], nat_eq, take, true, IfOk, IfSome};
ghost use Rattle.std.specs.List.{IsDistinct};
ghost use Rattle.std.specs.Option.{option_copied};
ghost use Rattle.wot_types.specs.Keyring.{certs_at};
ghost use Rattle.wot_levels.specs.Frontier.{weight};
ghost use Rattle.wot_live.specs.Agenda.{AreDue, HasMoreOf, IsWithin, is_due};

use crate::agenda::Agenda;
use crate::moved::Moved;
use crate::worklist::Worklist;
use std::sync::ledger::Ledger;
use wot_levels::certifier_levels;
use wot_table::{LentState, Table};
use wot_types::{KeyId, Mem, Row, Rows, Steps};

/// Rows while they are recounted, the keys to be recounted, which only grow, the levels at which these are due, and the keys whose
/// chains changed.
#[derive(Drop)]
pub struct Course {
    pub rows: Rows,
    pub todo: Worklist,
    pub agenda: Agenda,
    pub moved: Moved,
}

/// Puts a key on the agenda at the level of its own row, which has to be given anew, unless that level is past.
fn add_own(
    table: &Table,
    agenda: Agenda,
    first: u16,
    row: Option<&Row>,
    id: KeyId,
) -> Result<Agenda, Mem>
    ensures there { IfOk result (λ new. IfSome (option_copied row.entry) (λ r. first ≤ r.level → is_due new r.level id ≡ true)) }
    ensures more { IfOk result (HasMoreOf (id ∷ []) agenda) }
{
    match row {
        Some(row) => agenda.add_from(table.alloc(), first, row.level as u16, id),
        None => Ok(agenda),
    }
}

/// Puts a key on the agenda at the first two levels, at that of its own row and at those behind the levels of its certifiers, as far as
/// they are still to come: only there may its row change, while the rows stand as they do.
fn plan_key<L: Ledger>(
    state: &LentState<'_>,
    rows: &Rows,
    agenda: Agenda,
    id: KeyId,
    level: u8,
    steps: &mut Steps<L>,
) -> Result<Agenda, Mem>
    ensures due { IfOk result (AreDue state.now.keys rows.now level (id ∷ [])) }
    ensures more { IfOk result (HasMoreOf (id ∷ []) agenda) }
    ensures ticks { steps.new ≤ steps.old + certs_at state.now.keys id }
{
    let table = state.table();
    let alloc = table.alloc();
    let first = level as u16;
    let levels = certifier_levels(table, rows, id, steps)?;
    let agenda = agenda.add_from(alloc, first, 0, id)?;
    let agenda = agenda.add_from(alloc, first, 1, id)?;
    let agenda = add_own(table, agenda, first, rows.get(id), id)?;
    agenda.add_behind(alloc, first, levels.as_slice(), id)
}

/// Plans the listed keys, of which so many are planned already.
pub fn plan<L: Ledger>(
    state: &LentState<'_>,
    course: Course,
    planned: usize,
    level: u8,
    steps: &mut Steps<L>,
) -> Result<Course, Mem>
    requires due { AreDue state.now.keys course.rows level (take planned course.todo) course.agenda }
    requires within { IsWithin course.todo course.agenda }
    ensures rows { IfOk result (λ new. new.rows ≡ course.rows) }
    ensures todo { IfOk result (λ new. new.todo ≡ course.todo) }
    ensures moved { IfOk result (λ new. new.moved ≡ course.moved) }
    ensures due { IfOk result (λ new. AreDue state.now.keys new.rows level new.todo new.agenda) }
    ensures within { IfOk result (λ new. IsWithin new.todo new.agenda) }
    ensures distinct { IsDistinct nat_eq course.todo }
    ensures ticks { steps.new + weight state.now.keys (take planned course.todo) ≤ steps.old + weight state.now.keys course.todo }
{
    let Course {
        rows,
        todo,
        mut agenda,
        moved,
    } = course;
    let count = todo.len();
    for i in planned..count {
        agenda = plan_key(state, &rows, agenda, todo.id(i), level, steps)?;
    }
    Ok(Course {
        rows,
        todo,
        agenda,
        moved,
    })
}
