//! The law that a listing printed with its certifications reads back as the keyring.
#![tactic(auto)]

ghost use Rattle.std.specs.Prelude.{◌≡◌, ◌≤◌, All, false, length, map, true, None, Some};
ghost use Rattle.std.specs.List.{list_any};
ghost use Rattle.std.specs.FinMap as finmap;
ghost use Rattle.wot_types.specs.State.{State};
ghost use Rattle.wot_types.specs.Accepted.{IsFiled};
ghost use Rattle.wot_types.specs.declared.edit.Edit.TheVariants.{Import};
ghost use Rattle.wot_types.specs.declared.head.Head.TheVariants.{Import as ImportHead};
ghost use Rattle.wot_types.specs.Commands.{block_texts, ends_block};
ghost use Rattle.wot_types.specs.Keyring.{cert_total, with_keys};
ghost use Rattle.wot_types.specs.Lines.{lines, read_line};
ghost use Rattle.wot_types.specs.Listing.{Spells};
ghost use Rattle.wot_types.specs.Numbers.{capped};
ghost use Rattle.wot_types.specs.Outcome.{block_outcome, edit_outcome, import_line};
ghost use Rattle.wot_types.specs.Printing.{list_text};
ghost use Rattle.wot_types.specs.Store.{Store};
ghost use Rattle.wot_print_laws.specs.Fits.{FitsState};
ghost use Rattle.wot_print_laws.specs.ListingLines.{listing_lines};

/// A keyring that is printed with its certifications is a listing without a fault, of exactly its keys: each
/// certification is kept, and no record is passed. No line of it ends the block of an import. Where no line is too
/// long, the command `import` takes it for exactly these keys, and these, imported into an empty keyring, are the keyring.
pub fn printed_reads_back()
    ensures spells { (s : State) → FitsState s → All IsFiled (finmap.entries s.keys)
        → Spells (listing_lines (list_text s None true)) (finmap.values s.keys) (capped (cert_total s.keys)) 0 }
    ensures goes_on { (s : State) → FitsState s → All IsFiled (finmap.entries s.keys)
        → list_any (λ line. ends_block (Some line)) (lines (list_text s None true)) ≡ false }
    ensures command { (s : State) (store : Store) → FitsState s → All IsFiled (finmap.entries s.keys) → All (λ line. length line ≤ 65536) (lines (list_text s None true))
        → block_outcome ImportHead store (block_texts (map read_line (lines (list_text s None true))))
        ≡ edit_outcome (import_line (length (finmap.values s.keys)) (capped (cert_total s.keys)) 0) store (Import (finmap.values s.keys)) }
    ensures imported { (s : State) → All IsFiled (finmap.entries s.keys) → with_keys finmap.empty (finmap.values s.keys) ≡ s.keys }
{}
