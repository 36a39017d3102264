//! The rows that an edit changes, level by level.

ghost use Rattle.std.specs.Prelude.{◌≡◌, ◌≤◌, ◌+◌, ◌*◌, ◌||◌, ◌==◌, ℕ, true, List, [], ◌∷◌, nat_eq, take, IfOk};
ghost use Rattle.std.specs.List.{IsDistinct};
ghost use Rattle.wot_types.specs.State.{State};
ghost use Rattle.wot_types.specs.Explanation.{KeySet};
ghost use Rattle.wot_types.specs.Indexes.{has_cert_by};
ghost use Rattle.wot_types.specs.Keyring.{certs_at};
ghost use Rattle.wot_types.specs.Payload.{IsInRange};
ghost use Rattle.wot_types.specs.Touched.{certs_on, is_touched};
ghost use Rattle.wot_levels.specs.Frontier.{weight};
ghost use Rattle.wot_live.specs.Agenda.{AreDue, IsPutOff, IsWithin, due_at, is_due};
ghost use Rattle.wot_live.specs.Recounting.{IsBegun, IsCounted, IsGrownBy, IsRecounted, IsTouchedList, among};

use crate::agenda::{Agenda, Due};
use crate::moved::Moved;
use crate::planning::{Course, plan};
use crate::row_change::recount_row;
use crate::worklist::{Worklist, certified_by};
use std::sync::ledger::Ledger;
use wot_levels::{Asked, each_once};
use wot_table::{LentState, Table};
use wot_types::{KeyId, Mem, Rows, Steps};

/// Rows while they are recounted, and the keys to be recounted, which only grow.
#[derive(Drop)]
pub struct Recount {
    pub rows: Rows,
    pub todo: Worklist,
}

/// Recounts one key; where its row changes, or the chain above it did, those that it certified are to be recounted too, and are due at
/// the next level.
fn recount_key<L: Ledger>(
    state: &LentState<'_>,
    course: Course,
    id: KeyId,
    level: u8,
    steps: &mut Steps<L>,
    asked: &mut Asked,
) -> Result<Course, Mem>
    ensures step { IfOk result (λ new. IsRecounted state.now level course.moved.before (id ∷ []) course.rows course.todo course.moved.here new.rows new.todo new.moved.here) }
    ensures before { IfOk result (λ new. new.moved.before ≡ course.moved.before) }
    ensures due { IfOk result (λ new. (ids : List ℕ) → AreDue state.now.keys course.rows (level + 1) ids course.agenda → AreDue state.now.keys new.rows (level + 1) ids new.agenda) }
    ensures within { IfOk result (λ new. IsWithin course.todo course.agenda → IsWithin new.todo new.agenda) }
    ensures ticks { steps.new ≤ steps.old + certs_at state.now.keys id }
    ensures unread { level ≡ 0 → steps.new ≡ steps.old }
{
    let Course {
        rows,
        todo,
        agenda,
        moved,
    } = course;
    let new = recount_row(state, rows, id, level, steps, asked)?;
    let changed = moved.moves(new.changed, &new.rows, id, level);
    let course = Course {
        rows: new.rows,
        todo,
        agenda,
        moved,
    };
    if !changed {
        return Ok(course);
    }
    add_moved(state.table(), course, id, level as u16 + 1)
}

/// A key's chain changed: adds the keys that it certified. They are to be recounted too, and are due at this level.
fn add_moved(table: &Table, course: Course, id: KeyId, level: u16) -> Result<Course, Mem>
    ensures rows { IfOk result (λ new. new.rows ≡ course.rows) }
    ensures todo { IfOk result (λ new. IsGrownBy (has_cert_by table.now id) course.todo new.todo) }
    ensures agenda { IfOk result (λ new. IsPutOff (has_cert_by table.now id) level course.agenda new.agenda) }
    ensures before { IfOk result (λ new. new.moved.before ≡ course.moved.before) }
    ensures here { IfOk result (λ new. (y : ℕ) → among new.moved.here y ≡ (among course.moved.here y || (id == y))) }
{
    let Course {
        rows,
        todo,
        agenda,
        moved,
    } = course;
    let ids = certified_by(table, id)?;
    Ok(Course {
        rows,
        todo: todo.add_all(&ids)?,
        agenda: agenda.add_all(table.alloc(), level, &ids)?,
        moved: moved.add(id)?,
    })
}

/// Recounts these keys at a level.
fn recount_all<L: Ledger>(
    state: &LentState<'_>,
    course: Course,
    ids: &[KeyId],
    level: u8,
    steps: &mut Steps<L>,
    asked: &mut Asked,
) -> Result<Course, Mem>
    requires distinct { IsDistinct nat_eq ids.now }
    ensures pass { IfOk result (λ new. IsRecounted state.now level course.moved.before ids.now course.rows course.todo course.moved.here new.rows new.todo new.moved.here) }
    ensures before { IfOk result (λ new. new.moved.before ≡ course.moved.before) }
    ensures due { IfOk result (λ new. (ids : List ℕ) → AreDue state.now.keys course.rows (level + 1) ids course.agenda → AreDue state.now.keys new.rows (level + 1) ids new.agenda) }
    ensures within { IfOk result (λ new. IsWithin course.todo course.agenda → IsWithin new.todo new.agenda) }
    ensures ticks { steps.new ≤ steps.old + weight state.now.keys ids.now }
    ensures unread { level ≡ 0 → steps.new ≡ steps.old }
{
    let mut course = course;
    for id in ids {
        course = recount_key(state, course, *id, level, steps, asked)?;
    }
    Ok(course)
}

/// Recounts the keys that are due at a level.
fn recount_level<L: Ledger>(
    state: &LentState<'_>,
    course: Course,
    level: u8,
    steps: &mut Steps<L>,
    asked: &mut Asked,
) -> Result<Course, Mem>
    ensures pass { IfOk result (λ new. IsRecounted state.now level course.moved.before (due_at course.agenda level) course.rows course.todo course.moved.here new.rows new.todo new.moved.here) }
    ensures before { IfOk result (λ new. new.moved.before ≡ course.moved.before) }
    ensures due { IfOk result (λ new. (ids : List ℕ) → AreDue state.now.keys course.rows level ids course.agenda → AreDue state.now.keys new.rows (level + 1) ids new.agenda) }
    ensures within { IfOk result (λ new. IsWithin course.todo course.agenda → IsWithin new.todo new.agenda) }
    ensures ticks { (set : KeySet) → ((x : ℕ) → is_due course.agenda level x ≡ true → set x ≡ true) → steps.new ≤ steps.old + certs_on set state.now.keys }
    ensures unread { level ≡ 0 → steps.new ≡ steps.old }
{
    let Course {
        rows,
        todo,
        agenda,
        moved,
    } = course;
    let Due { agenda, ids } = agenda.take(state.table().alloc(), level as u16);
    let ids = each_once(ids.into_vec());
    let course = Course {
        rows,
        todo,
        agenda,
        moved,
    };
    recount_all(state, course, &ids, level, steps, asked)
}

/// Recounts the listed keys, and all whose certifiers' chains change, at one level after the other.
pub fn recount_levels<L: Ledger>(
    state: &LentState<'_>,
    found: Recount,
    steps: &mut Steps<L>,
    asked: &mut Asked,
) -> Result<Recount, Mem>
    requires ranges { IsInRange state.now.options }
    ensures counted { IfOk result (λ new. (s : State) → IsBegun s state.now found.rows found.todo
        → IsCounted s state.now found.todo new.rows new.todo) }
    ensures touched { IfOk result (λ new. (s : State) (named : KeySet) → IsBegun s state.now found.rows found.todo
        → IsTouchedList named s state.now found.todo → IsTouchedList named s state.now new.todo) }
    ensures ticks { (s : State) (named : KeySet) → IsBegun s state.now found.rows found.todo
        → IsTouchedList named s state.now found.todo
        → steps.new ≤ steps.old + state.now.options.depth * certs_on (is_touched named s state.now) state.now.keys }
{
    let Recount { rows, todo } = found;
    let agenda = Agenda::new(state.table().alloc());
    let moved = Moved::new(state.table().alloc());
    let mut course = Course {
        rows,
        todo,
        agenda,
        moved,
    };
    let mut planned = 0;
    for level in 0..state.options().depth {
        course = plan(state, course, planned, level, steps)?;
        planned = course.todo.len();
        let done = recount_level(state, course, level, steps, asked)?;
        let moved = done.moved.next(state.table().alloc())?;
        course = Course {
            rows: done.rows,
            todo: done.todo,
            agenda: done.agenda,
            moved,
        };
    }
    let Course { rows, todo, .. } = course;
    Ok(Recount { rows, todo })
}
