//! How many introducers there are, and how many user IDs have which letter.

ghost use Rattle.std.specs.Prelude.{◌≡◌, ◌∷◌, [], ◌++◌, IfOk, IsSome, List, OnOk, Some};
ghost use Rattle.std.specs.FinMap as finmap;
ghost use Rattle.wot_types.specs.declared.letter.Letter.{Letter};
ghost use Rattle.wot_types.specs.Arrangement.{spot_of};
ghost use Rattle.wot_types.specs.Letters.{user_letter, user_letters};
ghost use Rattle.wot_types.specs.Levels.{rows_of};
ghost use Rattle.wot_types.specs.Numbers.{capped};
ghost use Rattle.wot_types.specs.Selection.{Spot};
ghost use Rattle.wot_types.specs.Tally.{all_letters, tally_line};
ghost use Rattle.wot_table.specs.Heads.{IsKeyHead};
ghost use Rattle.wot_live.specs.KeyLetters.{AreOfKey};
ghost use Rattle.wot_print.specs.Counts.{count_fields, counts_line, counts_of};

use std::alloc::Global;
use std::sync::ledger::Ledger;
use wot_fields::{Printed, Sink};
use wot_levels::{Asked, user_in, verdict_in};
use wot_lines::push_count_field;
use wot_live::{Engine, Letters, letter_by};
use wot_table::{KeyHead, Keyblock, LentState};
use wot_types::{Letter, Mem, Rows, Steps};

/// How many user IDs have each letter. A count stands still at 2^64 - 1.
#[derive(Clone, Copy, Debug)]
pub struct LetterCounts {
    ultimate: u64,
    full: u64,
    marginal: u64,
    undefined: u64,
    unknown: u64,
    revoked: u64,
    expired: u64,
}

impl LetterCounts {
    /// Of no user IDs.
    pub fn new() -> LetterCounts
        ensures { result ≡ counts_of [] }
    {
        LetterCounts {
            ultimate: 0,
            full: 0,
            marginal: 0,
            undefined: 0,
            unknown: 0,
            revoked: 0,
            expired: 0,
        }
    }

    /// One user ID more, with this letter.
    fn add(&mut self, letter: Letter)
        ensures { (letters : List Letter) → self.old ≡ counts_of letters → self.new ≡ counts_of (letters ++ letter ∷ []) }
    {
        match letter {
            Letter::U => self.ultimate = self.ultimate.saturating_add(1),
            Letter::F => self.full = self.full.saturating_add(1),
            Letter::M => self.marginal = self.marginal.saturating_add(1),
            Letter::Q => self.undefined = self.undefined.saturating_add(1),
            Letter::Dash => self.unknown = self.unknown.saturating_add(1),
            Letter::R => self.revoked = self.revoked.saturating_add(1),
            Letter::E => self.expired = self.expired.saturating_add(1),
        }
    }

    /// Those of other user IDs added.
    pub fn add_all(&mut self, more: LetterCounts)
        ensures { (a b : List Letter) → self.old ≡ counts_of a → more ≡ counts_of b → self.new ≡ counts_of (a ++ b) }
    {
        self.ultimate = self.ultimate.saturating_add(more.ultimate);
        self.full = self.full.saturating_add(more.full);
        self.marginal = self.marginal.saturating_add(more.marginal);
        self.undefined = self.undefined.saturating_add(more.undefined);
        self.unknown = self.unknown.saturating_add(more.unknown);
        self.revoked = self.revoked.saturating_add(more.revoked);
        self.expired = self.expired.saturating_add(more.expired);
    }
}

/// `tally:ROWS:U:F:M:Q:D:R:E:`, with the letters that the user IDs have.
pub fn tally(alloc: Global, engine: &Engine) -> Result<Vec<u8>, Mem>
    ensures { IfOk result (λ text. text.items ≡ tally_line engine.now (rows_of engine.now)) }
{
    let counts = count_letters(engine);
    counts_line(alloc, engine.rows(), &counts)
}

/// The line of a tally.
pub fn counts_line(alloc: Global, rows: &Rows, counts: &LetterCounts) -> Result<Vec<u8>, Mem>
    ensures { IfOk result (λ text. text.items ≡ counts_line rows.now counts.now) }
{
    let mut text = Printed::new(alloc);
    text.push_bytes(b"tally:")?;
    push_count_field(&mut text, count_rows(rows))?;
    push_counts(&mut text, counts)?;
    text.push(b'\n')?;
    text.into_vec()
}

/// How many introducers there are.
fn count_rows(rows: &Rows) -> u64
    ensures { result ≡ capped (finmap.len rows.now) }
{
    rows.len() as u64
}

/// The letters of all user IDs: rows and counts are walked beside the keys.
fn count_letters(engine: &Engine) -> LetterCounts
    ensures { result ≡ counts_of (all_letters engine.now (rows_of engine.now)) }
{
    let mut walk = engine.letter_walk();
    let mut counts = LetterCounts::new();
    for keyblock in engine.table().walk() {
        let letters = walk.letters(keyblock.id());
        add_letters(&mut counts, &letters, &keyblock);
    }
    counts
}

/// The letters of a key's user IDs.
fn add_letters(counts: &mut LetterCounts, letters: &Letters<'_>, keyblock: &Keyblock<'_>)
    requires told { AreOfKey letters.now keyblock.now }
    ensures { (passed : List Letter) → counts.old ≡ counts_of passed
        → counts.new ≡ counts_of (passed ++ user_letters letters.now.state (rows_of letters.now.state) keyblock.now.0 keyblock.now.1) }
{
    for user in 0..keyblock.key().users {
        counts.add(letters.letter(keyblock, user).unwrap());
    }
}

/// The letters of a key's user IDs by these rows, whose candidates are counted anew.
pub fn count_users<L: Ledger>(
    counts: &mut LetterCounts,
    state: &LentState<'_>,
    rows: &Rows,
    keyblock: &Keyblock<'_>,
    steps: &mut Steps<L>,
    asked: &mut Asked,
)
    ensures { (letters : List Letter) → counts.old ≡ counts_of letters
        → counts.new ≡ counts_of (letters ++ user_letters state.now rows.now keyblock.now.0 keyblock.now.1) }
{
    let head = keyblock.key();
    for user in 0..head.users {
        counts.add(letter_over(state, rows, keyblock, &head, user, steps, asked));
    }
}

/// The letter of a user ID, numbered from 0, by these rows.
fn letter_over<L: Ledger>(
    state: &LentState<'_>,
    rows: &Rows,
    keyblock: &Keyblock<'_>,
    key: &KeyHead<'_>,
    user: u32,
    steps: &mut Steps<L>,
    asked: &mut Asked,
) -> Letter
    requires there { IsSome (spot_of keyblock.now.1 user) }
    requires head { IsKeyHead keyblock.now.1 key.now }
    ensures { (spot : Spot) → spot_of keyblock.now.1 user ≡ Some spot
        → result ≡ user_letter state.now rows.now keyblock.now.0 keyblock.now.1 spot }
{
    let count = verdict_in(keyblock, state, rows, user, steps, asked);
    let head = user_in(keyblock, user).unwrap();
    letter_by(state, rows.get(keyblock.id()), key, &head, &count)
}

/// The counts in the order `u f m q - r e`.
fn push_counts(text: &mut Printed, counts: &LetterCounts) -> Result<(), Mem>
    ensures { OnOk result (text.new ≡ text.old ++ count_fields counts.now) }
{
    push_count_field(text, counts.ultimate)?;
    push_count_field(text, counts.full)?;
    push_count_field(text, counts.marginal)?;
    push_count_field(text, counts.undefined)?;
    push_count_field(text, counts.unknown)?;
    push_count_field(text, counts.revoked)?;
    push_count_field(text, counts.expired)?;
    Ok(())
}
