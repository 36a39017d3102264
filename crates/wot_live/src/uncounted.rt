//! A state after edits, of which the rows and counts are still to be brought up to date. Here stands what each edit is.

ghost use Rattle.std.specs.Prelude.{◌≡◌, ◌≤◌, ◌+◌, ◌*◌, All, None, IfOk, IsSome};
ghost use Rattle.std.specs.FinMap as map;
ghost use Rattle.wot_types.specs.Explanation.{KeySet};
ghost use Rattle.wot_types.specs.Keyring.{taken_id, with_keys};
ghost use Rattle.wot_types.specs.Ownertrust.{with_entries};
ghost use Rattle.wot_types.specs.Payload.{IsInRange};
ghost use Rattle.wot_types.specs.State.{State};
ghost use Rattle.wot_types.specs.Touched.{certs_on, is_touched, named_by_date, named_by_options, named_by_put, named_by_remove};
ghost use Rattle.wot_types.specs.WellFormed.{IsWellFormed};
ghost use Rattle.wot_live.specs.declared.todo.Todo.TheVariants.{Named as Listed};
ghost use Rattle.wot_live.specs.Follows.{Follows, HasIntroducers, HasLeft, IsDueSince, IsListedSince, NamesMore, StaysDue, owned_state, uncounted_state, with_named};
ghost use Rattle.wot_live.specs.PlainEdit.{IsAllowed, after_plain, named_by_plain};

use crate::count_anew::count_anew;
use crate::count_listed::recount;
use crate::engine::Engine;
use crate::owned_state::OwnedState;
use crate::plain_edit::PlainEdit;
use crate::row_changes::{Recount, recount_levels};
use crate::rows_and_counts::RowsAndCounts;
use crate::todo::{Named, Todo};
use std::sync::ledger::Ledger;
use wot_levels::Asked;
use wot_table::LentState;
use wot_types::{Entries, KeyId, Keys, Mem, Options, Steps};

/// The state that some edits led to, and what they left to be counted.
#[derive(Drop)]
pub struct Uncounted {
    pub state: OwnedState,
    pub todo: Todo,
}

impl Uncounted {
    /// Makes an edit.
    pub fn make(self, edit: PlainEdit) -> Result<Uncounted, Mem>
        requires allowed { IsAllowed (uncounted_state self) edit }
        ensures state { IfOk result (λ new. uncounted_state new ≡ after_plain (uncounted_state self) edit) }
        ensures since { HasIntroducers self.state.table self.todo → NamesMore self (named_by_plain (uncounted_state self) edit) result }
        ensures due { StaysDue self result }
    {
        match edit {
            PlainEdit::Put(keys, entries) => self.put(keys, entries),
            PlainEdit::Remove(id) => self.remove(id),
            PlainEdit::SetDate(date) => self.set_date(date),
            PlainEdit::SetOptions(options) => Ok(self.set_options(options)),
        }
    }

    /// Adds or replaces keys, and sets entries, each in turn.
    pub fn put(self, keys: Keys, entries: Entries) -> Result<Uncounted, Mem>
        requires well_formed { All IsWellFormed keys }
        requires free { taken_id self.state.table keys ≡ None }
        ensures state { IfOk result (λ new. uncounted_state new ≡ record (uncounted_state self) { keys = with_keys self.state.table keys; trusts = with_entries self.state.trusts entries }) }
        ensures since { HasIntroducers self.state.table self.todo → NamesMore self (named_by_put (uncounted_state self) keys entries) result }
        ensures due { StaysDue self result }
    {
        let todo = self.todo.put(&self.state.table, &keys, &entries)?;
        let state = self.state.put(keys, entries)?;
        Ok(Uncounted { state, todo })
    }

    /// Takes a key out.
    pub fn remove(self, id: KeyId) -> Result<Uncounted, Mem>
        requires there { IsSome (map.get self.state.table id) }
        ensures state { IfOk result (λ new. uncounted_state new ≡ record (uncounted_state self) { keys = map.remove self.state.table id }) }
        ensures since { NamesMore self (named_by_remove id) result }
    {
        let todo = self.todo.remove(id)?;
        let state = self.state.remove(id)?;
        Ok(Uncounted { state, todo })
    }

    /// Sets the date at which expiries are judged, forward or back, in seconds since 1970.
    pub fn set_date(self, now: u32) -> Result<Uncounted, Mem>
        ensures state { IfOk result (λ new. uncounted_state new ≡ record (uncounted_state self) { date = now }) }
        ensures since { NamesMore self (named_by_date (uncounted_state self) now) result }
    {
        let todo = self.todo.set_date(&self.state.table, self.state.date, now)?;
        let state = OwnedState {
            date: now,
            ..self.state
        };
        Ok(Uncounted { state, todo })
    }

    /// Sets the options of the trust model; all keys are to be counted then.
    pub fn set_options(self, options: Options) -> Uncounted
        ensures state { uncounted_state result ≡ record (uncounted_state self) { options = options } }
        ensures since { (s : State) (names : KeySet) → IsDueSince s (with_named names named_by_options) (uncounted_state result) result.todo }
    {
        Uncounted {
            state: OwnedState {
                options,
                ..self.state
            },
            todo: Todo::All,
        }
    }

    /// The engine of this state, by the rows and counts of the state before the edits. The keys that these named are recounted, and
    /// with them only those certified by a key whose chain changes: its row, or the row of whoever delegated to it, and so on up. All
    /// others are as they were.
    pub fn count<L: Ledger>(self, steps: &mut Steps<L>) -> Result<Engine, Mem>
        requires due { HasLeft (uncounted_state self) self.todo }
        ensures state { IfOk result (λ new. new ≡ uncounted_state self) }
        ensures ticks { (s : State) (names : KeySet) → IsDueSince s names (uncounted_state self) self.todo
            → steps.new ≤ steps.old + (self.state.options.depth + 1) * certs_on (is_touched names s (uncounted_state self)) self.state.table }
    {
        match self.todo.all_if_whole(&self.state.table) {
            Todo::All => {
                let state = self.state;
                count_anew(state.table, state.trusts, state.date, state.options, steps)
            }
            Todo::Named(named) => count_listed(self.state, named, steps),
        }
    }
}

/// The engine of a state by the rows and counts of the one before, of which those of listed keys are to be taken anew.
fn count_listed<L: Ledger>(
    state: OwnedState,
    named: Named,
    steps: &mut Steps<L>,
) -> Result<Engine, Mem>
    requires due { HasLeft (owned_state state) (Listed named) }
    ensures state { IfOk result (λ new. new ≡ owned_state state) }
    ensures ticks { (s : State) (names : KeySet) → IsListedSince s names (owned_state state) named
        → steps.new ≤ steps.old + (state.options.depth + 1) * certs_on (is_touched names s (owned_state state)) state.table }
{
    let state = indexed_for(state, &named)?;
    let counted = recounted(&state.lent(), named, steps)?;
    Ok(Engine {
        table: state.table,
        trusts: state.trusts,
        date: state.date,
        options: state.options,
        rows: counted.rows,
        counts: counted.counts,
    })
}

/// The state for a recount of listed keys, with its index by issuers, by which a key whose row changes tells whom it certified. It is not
/// made where no row changes: where no key is listed, and where nobody introduced and nobody does.
fn indexed_for(state: OwnedState, named: &Named) -> Result<OwnedState, Mem>
    ensures { IfOk result (λ new. owned_state new ≡ owned_state state) }
{
    if named.list.len() == 0 || (named.rows.len() == 0 && state.trusts.len() == 0) {
        return Ok(state);
    }
    let table = state.table.indexed()?;
    Ok(OwnedState { table, ..state })
}

/// The rows and counts of a state, by those of the one before, of which those of listed keys are taken anew.
fn recounted<L: Ledger>(
    state: &LentState<'_>,
    named: Named,
    steps: &mut Steps<L>,
) -> Result<RowsAndCounts, Mem>
    requires ranges { IsInRange state.now.options }
    ensures counted { IfOk result (λ new. (s : State) (names : KeySet) → IsListedSince s names state.now named → Follows state.now new.rows new.counts) }
    ensures ticks { (s : State) (names : KeySet) → IsListedSince s names state.now named
        → steps.new ≤ steps.old + (state.now.options.depth + 1) * certs_on (is_touched names s state.now) state.now.keys }
{
    let found = Recount {
        rows: named.rows,
        todo: named.list,
    };
    let mut asked = Asked::new(state.table().alloc());
    let found = recount_levels(state, found, steps, &mut asked)?;
    let counts = recount(
        state,
        &found.rows,
        named.counts,
        &found.todo,
        steps,
        &mut asked,
    )?;
    Ok(RowsAndCounts {
        rows: found.rows,
        counts,
    })
}
