//! The letters that differ between two states of the same keys.

ghost use Rattle.std.specs.Prelude.{◌≡◌, ◌++◌, length, option_to_list, IfOk, OnOk};
ghost use Rattle.wot_types.specs.Letters.{user_letters};
ghost use Rattle.wot_types.specs.Levels.{rows_of};
ghost use Rattle.wot_types.specs.State.{State};
ghost use Rattle.wot_types.specs.Supposing.{change_of, changed_letters, changes};
ghost use Rattle.wot_types.specs.Tally.{all_letters};
ghost use Rattle.wot_live.specs.KeyLetters.{AreOfKey};

use std::alloc::Global;
use wot_live::{Engine, Letters};
use wot_table::Keyblock;
use wot_types::{Change, Changes, KeyId, Letter, Mem};

/// The changes to this state from one of the same keys, in which all user IDs had these letters.
pub fn changes_since(alloc: Global, engine: &Engine, former: &[Letter]) -> Result<Changes, Mem>
    requires known { (s : State) × (s.keys ≡ engine.now.keys) × (former.now ≡ all_letters s (rows_of s)) }
    ensures { IfOk result (λ found. (s : State) → s.keys ≡ engine.now.keys → former.now ≡ all_letters s (rows_of s) → found ≡ changes s engine.now) }
{
    let mut walk = engine.letter_walk();
    let mut found = Changes::new(alloc);
    let mut left = former;
    for keyblock in engine.table().walk() {
        let letters = walk.letters(keyblock.id());
        let (here, rest) = left.split_at(keyblock.key().users as usize);
        add_changes(&mut found, &letters, &keyblock, here)?;
        left = rest;
    }
    Ok(found)
}

/// Adds the changes on a key whose user IDs had these letters.
fn add_changes(
    found: &mut Changes,
    letters: &Letters<'_>,
    keyblock: &Keyblock<'_>,
    former: &[Letter],
) -> Result<(), Mem>
    requires told { AreOfKey letters.now keyblock.now }
    requires all { length former.now ≡ length keyblock.now.1.users }
    ensures { OnOk result (found.new ≡ found.old ++ changed_letters keyblock.now.0 0 former.now (user_letters letters.now.state (rows_of letters.now.state) keyblock.now.0 keyblock.now.1)) }
{
    let key = keyblock.key();
    for user in 0..key.users {
        let new = letters.letter(keyblock, user).unwrap();
        add_change(found, keyblock.id(), user, former[user as usize], new)?;
    }
    Ok(())
}

/// Adds the change of a user ID, numbered from 0 in its key, if it has one.
fn add_change(
    found: &mut Changes,
    id: KeyId,
    user: u32,
    old: Letter,
    new: Letter,
) -> Result<(), Mem>
    ensures { OnOk result (found.new ≡ found.old ++ option_to_list (change_of id user old new)) }
{
    if old == new {
        return Ok(());
    }
    found.push(Change {
        key: id,
        user,
        old,
        new,
    })
}
