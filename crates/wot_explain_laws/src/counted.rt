//! How candidates are counted.

ghost use Rattle.std.specs.Prelude.{◌≡◌};
ghost use Rattle.std.specs.FinMap as map;
ghost use Rattle.wot_types.specs.Candidates.{RowMap, count_of};
ghost use Rattle.wot_types.specs.Explanation.{are_candidates, count_by_trust};
ghost use Rattle.wot_types.specs.Selection.{Spot};
ghost use Rattle.wot_types.specs.State.{State};

/// The count of the candidates for a user ID is that of their rows by trust, which an explanation prints.
pub fn counts_agree()
    ensures { (s : State) (rows : RowMap) (spot : Spot) → count_of s spot rows ≡ count_by_trust (map.values (map.retain_keys rows (are_candidates s rows spot))) }
{}
