//! Which of an issuer's certifications decides, and whether it counts.

ghost use Rattle.std.specs.Prelude.{◌≡◌, ◌∷◌, [], true, false, Some, None, is_some};
ghost use Rattle.wot_types.specs.Selection.{placed_from, usable};
ghost use Rattle.wot_examples.specs.Keyrings.{by, fingerprint, naming, of_class, with_expiry};

/// The latest decides, and at its expiry the older one is not fallen back to.
pub fn latest_certification_decides()
    ensures in_force { is_some (usable 3999 2 None 10 (placed_from 0 (by 10 2000 ∷ with_expiry 4000 (by 10 3000) ∷ []))) ≡ true }
    ensures expired { is_some (usable 4000 2 None 10 (placed_from 0 (by 10 2000 ∷ with_expiry 4000 (by 10 3000) ∷ []))) ≡ false }
    ensures revoked { is_some (usable 0 2 None 10 (placed_from 0 (by 10 2000 ∷ of_class 48 (by 10 2000) ∷ []))) ≡ false }
    ensures again { is_some (usable 0 2 None 10 (placed_from 0 (of_class 48 (by 10 2000) ∷ by 10 2000 ∷ []))) ≡ true }
    ensures another { is_some (usable 0 2 None 10 (placed_from 0 (by 10 2000 ∷ of_class 48 (by 11 3000) ∷ []))) ≡ true }
{}

/// A certification of a level below the least one is disregarded, but a generic one is not.
pub fn low_levels_are_disregarded()
    ensures below { is_some (usable 0 2 None 10 (placed_from 0 (of_class 17 (by 10 2000) ∷ []))) ≡ false }
    ensures at_least { is_some (usable 0 1 None 10 (placed_from 0 (of_class 17 (by 10 2000) ∷ []))) ≡ true }
    ensures generic { is_some (usable 0 3 None 10 (placed_from 0 (of_class 16 (by 10 2000) ∷ []))) ≡ true }
{}

/// A certification that names another fingerprint than that of the key of its issuer's key ID is disregarded, and the one before it decides.
/// Without such a key it counts, as one does that names none.
pub fn another_fingerprint_is_disregarded()
    ensures another { is_some (usable 0 2 (Some (fingerprint 10)) 10 (placed_from 0 (naming (fingerprint 11) (by 10 2000) ∷ []))) ≡ false }
    ensures before { is_some (usable 0 2 (Some (fingerprint 10)) 10 (placed_from 0 (by 10 2000 ∷ naming (fingerprint 11) (of_class 48 (by 10 3000)) ∷ []))) ≡ true }
    ensures own { is_some (usable 0 2 (Some (fingerprint 10)) 10 (placed_from 0 (naming (fingerprint 10) (by 10 2000) ∷ []))) ≡ true }
    ensures unnamed { is_some (usable 0 2 (Some (fingerprint 10)) 10 (placed_from 0 (by 10 2000 ∷ []))) ≡ true }
    ensures no_key { is_some (usable 0 2 None 10 (placed_from 0 (naming (fingerprint 11) (by 10 2000) ∷ []))) ≡ true }
{}
