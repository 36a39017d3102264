//! The entries of a whole ownertrust text, or its first fault.

ghost use Rattle.std.specs.Prelude.{◌≡◌, ◌++◌, ◌∷◌, ◌↔◌, [], map, ℕ, List, Some, Err, IfOk, OnOk, OnErr};
ghost use Rattle.std.specs.FinMap as finmap;
ghost use Rattle.wot_types.specs.declared.fault.OwnertrustFault.{OwnertrustFault};
ghost use Rattle.wot_types.specs.OwnertrustText.{listed_entries, ownertrust_fault};
ghost use Rattle.wot_types.specs.Payload.{AreSettable};
ghost use Rattle.wot_ownertrust.specs.declared.text.TextError.TheVariants.{Fault, Memory};
ghost use Rattle.wot_ownertrust.specs.Reading.{so_far_after, reading_of};
ghost use Rattle.wot_types.specs.Ownertrust.{entry_of};

use crate::line::read_line;
use std::alloc::Global;
use std::marker::Model;
use thiserror::Error;
use wot_types::{Entries, Entry, List, Mem, Ownertrust, OwnertrustFault, Trusts};

/// Why a text gives no entries.
#[derive(Clone, Copy, Debug, PartialEq, Eq, Drop, Error)]
pub enum TextError {
    /// The first fault, and its line counted from 1; a number above 2^64 - 1 is given as that.
    #[error("line {0} is no line of an ownertrust text")]
    Fault(u64, OwnertrustFault),
    #[error("out of memory")]
    Memory,
}

impl From<Mem> for TextError {
    ghost from_gives = { λ _ e. e ≡ Memory };

    fn from(_e: Mem) -> TextError {
        TextError::Memory
    }
}

/// An ownertrust text that is read line by line, seen as what is kept of the lines so far, or as their first fault.
#[derive(Debug, Drop)]
pub struct OwnertrustText {
    entries: Trusts,
    lines: u64,
    fault: Option<(u64, OwnertrustFault)>,
}

impl Model for OwnertrustText {
    ghost use Rattle.std.specs.Coded.{codes, coded_ℕ, coded_list};
    ghost use Rattle.std.specs.FinMap as finmap;
    ghost use Rattle.wot_types.specs.Fingerprint.{fpr_cmp};
    ghost use Rattle.wot_types.specs.contracts.ownertrust.Ownertrust as ownertrust_struct;
    ghost use Rattle.wot_ownertrust.specs.Reading.{SoFar, so_far};

    ghost Value = { SoFar };

    ghost coded = { Prim.hlevel (codes, finmap.code {R = fpr_cmp} (coded_list coded_ℕ) ownertrust_struct.the_row.coded) };

    ghost view = { λ t. so_far t.fault t.entries t.lines };
}

impl OwnertrustText {
    /// A text of no lines, which takes no memory.
    pub fn new(alloc: Global) -> OwnertrustText
        ensures { result ≡ reading_of [] }
    {
        OwnertrustText {
            entries: Trusts::new(alloc),
            lines: 0,
            fault: None,
        }
    }

    /// Adds a line, which has no newline. Of several entries of one fingerprint the last stands.
    #[tactic(auto, using(crate::proofs::Texts::after_one))]
    pub fn add_line(&mut self, line: &[u8]) -> Result<(), Mem>
        // the text has then one more line, whatever the lines before it were
        ensures ok { OnOk result ((lines : List (List ℕ)) → self.old ≡ reading_of lines → self.new ≡ reading_of (lines ++ line.now ∷ [])) }
        ensures err { OnErr result (self.new ≡ self.old) }
    {
        self.add(line)
    }

    #[tactic(auto, using(crate::proofs::Lines::line_sets))]
    fn add(&mut self, line: &[u8]) -> Result<(), Mem>
        ensures ok { OnOk result (self.new ≡ so_far_after self.old line.now) }
        ensures err { OnErr result (self.new ≡ self.old) }
    {
        if self.fault.is_some() {
            return Ok(());
        }
        let number = self.lines.saturating_add(1);
        match read_line(line) {
            Ok(Some(entry)) => {
                let Entry {
                    fpr,
                    trust,
                    disabled,
                } = entry;
                self.entries.keep(fpr, Ownertrust { trust, disabled })?;
            }
            Ok(None) => {}
            Err(what) => self.fault = Some((number, what)),
        }
        self.lines = number;
        Ok(())
    }

    /// Ends the text: its entries in rising order of their fingerprints, or its first fault.
    #[tactic(auto, using(crate::proofs::Texts::settable, crate::proofs::Texts::whole, crate::proofs::Texts::faulty))]
    pub fn into_entries(self, alloc: Global) -> Result<Entries, TextError>
        ensures entries { (lines : List (List ℕ)) → self ≡ reading_of lines → IfOk result (λ entries. entries ≡ listed_entries lines) }
        ensures fault { (lines : List (List ℕ)) → self ≡ reading_of lines → (line : ℕ) (what : OwnertrustFault)
            → (result ≡ Err (Fault line what)) ↔ (ownertrust_fault lines ≡ Some (line, what)) }
        // entries that an edit may set
        ensures settable { (lines : List (List ℕ)) → self ≡ reading_of lines → IfOk result (λ entries. AreSettable entries) }
    {
        let OwnertrustText { entries, fault, .. } = self;
        match fault {
            Some((line, what)) => Err(TextError::Fault(line, what)),
            None => Ok(entries_of(alloc, &entries)?),
        }
    }
}

/// The entries in rising order of their fingerprints.
fn entries_of(alloc: Global, entries: &Trusts) -> Result<Entries, Mem>
    ensures { IfOk result (λ listed. listed ≡ map entry_of (finmap.entries entries.now)) }
{
    let mut listed = List::new(alloc);
    for (fpr, kept) in entries.iter() {
        listed.push(Entry {
            fpr: fpr.copy(),
            trust: kept.trust,
            disabled: kept.disabled,
        })?;
    }
    Ok(listed)
}
