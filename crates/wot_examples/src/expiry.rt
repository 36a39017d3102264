//! What has ended, and when validity may change next.

ghost use Rattle.std.specs.Prelude.{◌≡◌, ◌∷◌, [], true, false};
ghost use Rattle.wot_types.specs.declared.letter.Letter.TheVariants.{E};
ghost use Rattle.wot_types.specs.State.{State};
ghost use Rattle.wot_types.specs.Candidates.{RowMap};
ghost use Rattle.wot_types.specs.Expiry.{key_is_live};
ghost use Rattle.wot_types.specs.Keyring.{Keyring};
ghost use Rattle.wot_types.specs.Letters.{key_letter, user_letters};
ghost use Rattle.wot_types.specs.NextCheck.{next_check};
ghost use Rattle.wot_examples.specs.Keyrings.{Hold, at_date, by, certified_user, key, key_with_expiry};

/// A key lives up to the second before its expiry, and has ended at it, and so have its user IDs, whoever certifies them.
pub fn keys_end_at_their_expiry()
    ensures before { key_is_live 4999 (key_with_expiry 5000 (key 11 (certified_user (by 10 2000) ∷ []))) ≡ true }
    ensures at { key_is_live 5000 (key_with_expiry 5000 (key 11 (certified_user (by 10 2000) ∷ []))) ≡ false }
    ensures of_the_key { (s : State) (rows : RowMap) → s.date ≡ 5000
        → key_letter s rows 11 (key_with_expiry 5000 (key 11 (certified_user (by 10 2000) ∷ []))) ≡ E }
    ensures of_its_user_ids { (s : State) (rows : RowMap) → s.date ≡ 5000
        → user_letters s rows 11 (key_with_expiry 5000 (key 11 (certified_user (by 10 2000) ∷ []))) ≡ E ∷ [] }
{}

/// The next check is at the next expiry, and there is none after the last.
pub fn next_check_is_at_the_next_expiry()
    ensures before { (keys : Keyring) → Hold keys (key 10 [] ∷ key_with_expiry 5000 (key 11 (certified_user (by 10 2000) ∷ [])) ∷ [])
        → next_check (at_date 4999 keys) ≡ 5000 }
    ensures at { (keys : Keyring) → Hold keys (key 10 [] ∷ key_with_expiry 5000 (key 11 (certified_user (by 10 2000) ∷ [])) ∷ [])
        → next_check (at_date 5000 keys) ≡ 0 }
{}
