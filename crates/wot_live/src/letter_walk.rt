//! The letters of keys that come in rising order.

ghost use Rattle.std.specs.Prelude.{◌≡◌, ◌≤◌, Some};
ghost use Rattle.std.specs.FinMap as map;
ghost use Rattle.wot_types.specs.declared.key.Key.{Key};
ghost use Rattle.wot_types.specs.Levels.{rows_of};
ghost use Rattle.wot_live.specs.Ahead.{IsAhead};
ghost use Rattle.wot_live.specs.Counts.{CountMap, counts_at, counts_of};
ghost use Rattle.wot_live.specs.KeyLetters.{AreOfKey};

use crate::beside::Beside;
use crate::counts::Counts;
use crate::key_counts::KeyCounts;
use crate::letters::Letters;
use std::marker::Model;
use wot_table::LentState;
use wot_types::{Count, KeyId, Row, Rows};

/// What tells the letters of keys that come in rising order of their key IDs: rows and counts are walked beside them.
#[derive(Drop)]
pub struct LetterWalk<'a> {
    state: LentState<'a>,
    rows: Beside<'a, Row>,
    counts: Beside<'a, KeyCounts>,
    /// The key that was asked for last.
    from: KeyId,
}

impl<'a> Model for LetterWalk<'a> {
    ghost use Rattle.wot_live.specs.Ahead.{AreAhead, LettersFrom, letters_code};

    ghost Value = { LettersFrom };

    ghost coded = { letters_code };

    ghost view = { λ w. record { state = w.state; from = w.from } };

    ghost invariant = { λ w. AreAhead w.state w.from w.rows w.counts };
}

impl<'a> LetterWalk<'a> {
    /// All keys of a state, with its rows and counts, are still to come.
    pub(super) fn of(state: LentState<'a>, rows: &'a Rows, counts: &'a Counts) -> LetterWalk<'a>
        requires rows { rows.now ≡ rows_of state }
        requires counts { counts.now ≡ counts_of state }
        ensures state { result.state ≡ state.entry }
        ensures from { result.from ≡ 0 }
    {
        LetterWalk {
            state,
            rows: Beside::of(rows.iter()),
            counts: Beside::of(counts.iter()),
            from: KeyId(0),
        }
    }

    /// What tells the letters of a key of the table, which is not below one that was asked for before.
    pub fn letters(&mut self, id: KeyId) -> Letters<'a>
        requires rising { self.old.from ≤ id }
        ensures state { result.state ≡ self.old.state }
        ensures told { (key : Key) → map.get self.old.state.keys id ≡ Some key → AreOfKey result (id, key) }
        ensures kept { self.new.state ≡ self.old.state }
        ensures from { self.new.from ≡ id }
    {
        self.from = id;
        Letters {
            state: again(&self.state),
            row: self.rows.at(id),
            counts: kept_at(&mut self.counts, id),
        }
    }
}

/// The same state, lent once more.
fn again<'a>(state: &LentState<'a>) -> LentState<'a>
    ensures { result ≡ state.now }
{
    LentState::of(state.table(), state.trusts(), state.date(), state.options())
}

/// The counts of a key, and none where nothing is kept of it.
fn kept_at<'a>(counts: &mut Beside<'a, KeyCounts>, id: KeyId) -> &'a [Count]
    ensures kept { (m : CountMap) → IsAhead m id counts.old → result.now ≡ counts_at m id }
    ensures ahead { (m : CountMap) → IsAhead m id counts.old → IsAhead m id counts.new }
{
    match counts.at(id) {
        Some(kept) => kept.as_slice(),
        None => &[],
    }
}
