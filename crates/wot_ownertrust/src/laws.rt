//! The law that an ownertrust that is exported is read back.

ghost use Rattle.std.specs.Prelude.{◌≡◌, All, false, List, None, Some, ℕ};
ghost use Rattle.std.specs.FinMap as finmap;
ghost use Rattle.std.specs.List.{list_any};
ghost use Rattle.hex.specs.Hex.{IsBytes};
ghost use Rattle.wot_types.specs.declared.ownertrust.Ownertrust.{Ownertrust};
ghost use Rattle.wot_types.specs.Commands.{ends_block};
ghost use Rattle.wot_types.specs.Fingerprint.{IsFprLength, fpr_cmp};
ghost use Rattle.wot_types.specs.Lines.{lines};
ghost use Rattle.wot_types.specs.Ownertrust.{OwnertrustMap, ownertrust_text, with_entries, with_ownertrust};
ghost use Rattle.wot_types.specs.OwnertrustText.{listed_entries, ownertrust_fault, text_entries};
ghost use Rattle.wot_ownertrust.specs.Kept.{IsKept};

/// What `export` prints is an ownertrust text without a fault, of exactly the entries that are kept. Set where none
/// were, these are the ownertrust again. No line of it ends the block of the command `ownertrust`.
pub fn exported_reads_back()
    ensures spells { (trusts : OwnertrustMap) → All IsKept (finmap.entries trusts) → ownertrust_fault (lines (ownertrust_text trusts)) ≡ None }
    ensures entries { (trusts : OwnertrustMap) → All IsKept (finmap.entries trusts) → text_entries (lines (ownertrust_text trusts)) ≡ trusts }
    ensures restored { (trusts : OwnertrustMap) → All IsKept (finmap.entries trusts) → with_entries finmap.empty (listed_entries (lines (ownertrust_text trusts))) ≡ trusts }
    ensures goes_on { (trusts : OwnertrustMap) → All IsKept (finmap.entries trusts) → list_any (λ line. ends_block (Some line)) (lines (ownertrust_text trusts)) ≡ false }
    // these entries are all that there are: none at first, and each edit of ownertrust is made by `with_ownertrust`
    ensures kept_at_first { All IsKept (finmap.entries (finmap.empty {R = fpr_cmp})) }
    ensures stays_kept { (trusts : OwnertrustMap) (fpr : List ℕ) (kept : Ownertrust) → All IsKept (finmap.entries trusts) → IsBytes fpr → IsFprLength fpr
        → All IsKept (finmap.entries (with_ownertrust trusts fpr kept)) }
{}
