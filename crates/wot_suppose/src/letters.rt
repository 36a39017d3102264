//! The letters of all user IDs.

ghost use Rattle.std.specs.Prelude.{◌≡◌, ◌++◌, IfOk, OnOk};
ghost use Rattle.wot_types.specs.Letters.{user_letters};
ghost use Rattle.wot_types.specs.Levels.{rows_of};
ghost use Rattle.wot_types.specs.Tally.{all_letters};
ghost use Rattle.wot_live.specs.KeyLetters.{AreOfKey};

use std::alloc::Global;
use wot_live::{Engine, Letters};
use wot_table::Keyblock;
use wot_types::{Letter, Mem};

/// The letters of all user IDs, key after key.
pub fn all_letters(alloc: Global, engine: &Engine) -> Result<Vec<Letter>, Mem>
    ensures { IfOk result (λ letters. letters.items ≡ all_letters engine.now (rows_of engine.now)) }
{
    let mut walk = engine.letter_walk();
    let mut all = Vec::new(alloc);
    for keyblock in engine.table().walk() {
        let letters = walk.letters(keyblock.id());
        push_letters(&mut all, &letters, &keyblock)?;
    }
    Ok(all)
}

/// The letters of a key's user IDs, behind those of other keys.
fn push_letters(
    all: &mut Vec<Letter>,
    letters: &Letters<'_>,
    keyblock: &Keyblock<'_>,
) -> Result<(), Mem>
    requires told { AreOfKey letters.now keyblock.now }
    ensures { OnOk result (all.new.items ≡ all.old.items ++ user_letters letters.now.state (rows_of letters.now.state) keyblock.now.0 keyblock.now.1) }
{
    for user in 0..keyblock.key().users {
        all.push(letters.letter(keyblock, user).unwrap())?;
    }
    Ok(())
}
