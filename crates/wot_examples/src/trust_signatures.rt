//! What trust signatures make of keys.

ghost use Rattle.std.specs.Prelude.{◌≡◌, ◌∷◌, [], false, codes};
ghost use Rattle.wot_types.specs.declared.letter.Letter.TheVariants.{Dash, F, M, Q};
ghost use Rattle.wot_types.specs.declared.trust.Trust.TheVariants.{Unknown, Marginal, Full};
ghost use Rattle.wot_types.specs.Candidates.{RowMap};
ghost use Rattle.wot_types.specs.State.{opening_options};
ghost use Rattle.wot_examples.specs.Keyrings.{Are, by, certified_user, delegated, in_scope, introducer, key, letters_over, row_over, trust_signature, ultimate, user, with_scope};

/// The amount of a trust signature of depth 1 makes an introducer of its key: from 120 on fully, from 60 on marginally trusted. In the classic model it is a certification like others.
#[tactic(auto, unfolding(wot_types::specs::Candidates::chain_within))]
pub fn trust_signatures_make_introducers()
    ensures marginal { (rows : RowMap) → Are rows (ultimate 10 ∷ [])
        → row_over opening_options rows 1 (key 11 (certified_user (trust_signature 1 60 (by 10 2000)) ∷ [])) ≡ delegated 10 (introducer 11 1 Marginal 0) }
    ensures less { (rows : RowMap) → Are rows (ultimate 10 ∷ [])
        → row_over opening_options rows 1 (key 11 (certified_user (trust_signature 1 59 (by 10 2000)) ∷ [])) ≡ delegated 10 (introducer 11 1 Unknown 0) }
    ensures full { (rows : RowMap) → Are rows (ultimate 10 ∷ [])
        → row_over opening_options rows 1 (key 11 (certified_user (trust_signature 1 120 (by 10 2000)) ∷ [])) ≡ delegated 10 (introducer 11 1 Full 0) }
    ensures classic { (rows : RowMap) → Are rows (ultimate 10 ∷ [])
        → row_over (record opening_options { pgp = false }) rows 1 (key 11 (certified_user (trust_signature 1 120 (by 10 2000)) ∷ [])) ≡ introducer 11 1 Unknown 0 }
    ensures by_marginal { (rows : RowMap) → Are rows (ultimate 10 ∷ introducer 11 1 Marginal 0 ∷ [])
        → letters_over rows (key 12 (certified_user (by 11 2000) ∷ [])) ≡ M ∷ [] }
    ensures by_less { (rows : RowMap) → Are rows (ultimate 10 ∷ introducer 11 1 Unknown 0 ∷ [])
        → letters_over rows (key 12 (certified_user (by 11 2000) ∷ [])) ≡ Q ∷ [] }
    ensures by_full { (rows : RowMap) → Are rows (ultimate 10 ∷ introducer 11 1 Full 0 ∷ [])
        → letters_over rows (key 12 (certified_user (by 11 2000) ∷ [])) ≡ F ∷ [] }
{}

/// An introducer hands on no more depth than it has left. One that has none left makes no introducer, and its trust signature counts as a certification.
#[tactic(auto, unfolding(wot_types::specs::Candidates::chain_within))]
pub fn depth_is_used_up()
    ensures handed_on { (rows : RowMap) → Are rows (ultimate 10 ∷ introducer 11 1 Full 2 ∷ [])
        → row_over opening_options rows 2 (key 12 (certified_user (trust_signature 5 120 (by 11 2000)) ∷ [])) ≡ delegated 11 (introducer 12 2 Full 1) }
    ensures none_left { (rows : RowMap) → Are rows (ultimate 10 ∷ introducer 11 1 Full 0 ∷ [])
        → row_over opening_options rows 2 (key 12 (certified_user (trust_signature 1 120 (by 11 2000)) ∷ [])) ≡ introducer 12 2 Unknown 0 }
    ensures certified { (rows : RowMap) → Are rows (ultimate 10 ∷ introducer 11 1 Full 0 ∷ [])
        → letters_over rows (key 12 (certified_user (trust_signature 1 120 (by 11 2000)) ∷ [])) ≡ F ∷ [] }
    ensures then_unknown { (rows : RowMap) → Are rows (ultimate 10 ∷ introducer 11 1 Full 0 ∷ introducer 12 2 Unknown 0 ∷ [])
        → letters_over rows (key 13 (certified_user (by 12 2000) ∷ [])) ≡ Q ∷ [] }
{}

/// Of trust signatures on several user IDs the latest counts.
#[tactic(auto, unfolding(wot_types::specs::Candidates::chain_within))]
pub fn latest_delegation_counts()
    ensures { (rows : RowMap) → Are rows (ultimate 10 ∷ ultimate 15 ∷ [])
        → row_over opening_options rows 1 (key 11 (certified_user (trust_signature 1 120 (by 10 2000)) ∷ certified_user (trust_signature 1 60 (by 15 3000)) ∷ []))
        ≡ delegated 15 (introducer 11 1 Marginal 0) }
{}

/// An introducer with a regular expression is a candidate for the user IDs that it admits.
#[tactic(auto, unfolding(wot_types::specs::Candidates::chain_within))]
pub fn scopes_narrow_introducers()
    ensures inside { (rows : RowMap) → Are rows (ultimate 10 ∷ in_scope (codes "\\.org") (introducer 11 1 Full 0) ∷ [])
        → letters_over rows (key 12 (user (codes "a@x.ORG") (by 11 2000 ∷ []) ∷ [])) ≡ F ∷ [] }
    ensures outside { (rows : RowMap) → Are rows (ultimate 10 ∷ in_scope (codes "\\.org") (introducer 11 1 Full 0) ∷ [])
        → letters_over rows (key 12 (user (codes "a@x-org") (by 11 2000 ∷ []) ∷ [])) ≡ Dash ∷ [] }
{}

/// Scopes narrow along a chain: key 12, to which key 11 delegated, introduces what both scopes admit, and key 11 no more than its own.
#[tactic(auto, unfolding(wot_types::specs::Candidates::chain_within))]
pub fn scopes_narrow_along_a_chain()
    ensures introduced { (rows : RowMap) → Are rows (ultimate 10 ∷ [])
        → row_over opening_options rows 1 (key 11 (user (codes "b@org") (with_scope (codes "org") (trust_signature 2 120 (by 10 2000)) ∷ []) ∷ []))
        ≡ delegated 10 (in_scope (codes "org") (introducer 11 1 Full 1)) }
    ensures handed_on { (rows : RowMap) → Are rows (ultimate 10 ∷ delegated 10 (in_scope (codes "org") (introducer 11 1 Full 1)) ∷ [])
        → row_over opening_options rows 2 (key 12 (user (codes "c@org") (with_scope (codes "net") (trust_signature 1 120 (by 11 3000)) ∷ []) ∷ []))
        ≡ delegated 11 (in_scope (codes "net") (introducer 12 2 Full 0)) }
    ensures outside { (rows : RowMap) → Are rows (ultimate 10 ∷ delegated 10 (in_scope (codes "org") (introducer 11 1 Full 1)) ∷ delegated 11 (in_scope (codes "net") (introducer 12 2 Full 0)) ∷ [])
        → letters_over rows (key 13 (user (codes "d@net") (by 12 4000 ∷ []) ∷ [])) ≡ Dash ∷ [] }
    ensures inside_both { (rows : RowMap) → Are rows (ultimate 10 ∷ delegated 10 (in_scope (codes "org") (introducer 11 1 Full 1)) ∷ delegated 11 (in_scope (codes "@l") (introducer 12 2 Full 0)) ∷ [])
        → letters_over rows (key 14 (user (codes "e@l.org") (by 12 4000 ∷ []) ∷ [])) ≡ F ∷ [] }
    ensures outside_its_own { (rows : RowMap) → Are rows (ultimate 10 ∷ delegated 10 (in_scope (codes "org") (introducer 11 1 Full 1)) ∷ delegated 11 (in_scope (codes "@l") (introducer 12 2 Full 0)) ∷ [])
        → letters_over rows (key 15 (user (codes "f@org") (by 12 4000 ∷ []) ∷ [])) ≡ Dash ∷ [] }
    ensures widened { (rows : RowMap) → Are rows (ultimate 10 ∷ delegated 10 (introducer 11 1 Full 1) ∷ delegated 11 (in_scope (codes "net") (introducer 12 2 Full 0)) ∷ [])
        → letters_over rows (key 13 (user (codes "d@net") (by 12 4000 ∷ []) ∷ [])) ≡ F ∷ [] }
{}
