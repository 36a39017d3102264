//! The reader of a listing.

ghost use Rattle.std.specs.Prelude.{◌≡◌, ◌∷◌, ◌++◌, [], ℕ, List, IfErr, IfOk};
ghost use Rattle.wot_types.specs.Accepted.{AreImportable};
ghost use Rattle.wot_listing.specs.Reading.{Finishes, HasRead, answer_of, reading_of, stop_of};

use crate::blocks::Blocks;
use crate::error::{LineError, ListingError};
use crate::so_far::SoFar;
use std::alloc::Global;
use std::marker::Model;
use wot_types::{ListingFault, Mem};

/// A reader of a listing's lines, seen as what is kept of them, or as what stops it. After a fault each later call answers that same fault, and after want of memory Memory.
#[derive(Debug, Drop)]
pub struct Listing {
    alloc: Global,
    progress: SoFar,
    stop: Option<ListingError>,
}

impl Model for Listing {
    ghost use Rattle.std.specs.Prelude.{Result, Ok, Err};
    ghost use Rattle.std.specs.Option.{option_map_or};
    ghost use Rattle.wot_listing.specs.declared.error.ListingError.{ListingError};
    ghost use Rattle.wot_listing.specs.declared.so_far.SoFar.{SoFar};
    ghost use Rattle.wot_listing.specs.contracts.so_far.SoFar as progress_struct;
    ghost use Rattle.std.specs.Coded.{codes};

    ghost Value = { Result SoFar ListingError };

    ghost coded = { Prim.hlevel (codes, progress_struct.the_row.coded) };

    ghost view = { λ l. option_map_or (λ e. Err e) l.stop (Ok l.progress) };
}

impl Listing {
    /// A reader that has read no line.
    pub fn new(alloc: Global) -> Result<Listing, Mem>
        ensures { IfOk result (λ listing. listing ≡ reading_of []) }
    {
        Ok(Listing {
            alloc,
            progress: SoFar::new(alloc),
            stop: None,
        })
    }

    /// Reads a line, which has no newline.
    pub fn feed_line(&mut self, line: &[u8]) -> Result<(), ListingError>
        // the reader has then read one more line, whatever the lines before it were
        ensures read { (lines : List (List ℕ)) → HasRead self.old lines → HasRead self.new (lines ++ line.now ∷ []) }
        ensures answer { result ≡ answer_of self.new }
        ensures stays { IfErr self.old (λ e. self.new ≡ Err e) }
    {
        match self.stop {
            Some(stop) => Err(stop),
            None => {
                let number = self.progress.lines.saturating_add(1);
                match self.progress.add_line(self.alloc, line) {
                    Ok(()) => Ok(()),
                    Err(e) => {
                        let stop = stop_at(number, e);
                        self.stop = Some(stop);
                        Err(stop)
                    }
                }
            }
        }
    }

    /// Ends the listing.
    pub fn finish(self) -> Result<Blocks, ListingError>
        // what the lines that were read spell, or their first fault
        ensures finishes { (lines : List (List ℕ)) → HasRead self lines → Finishes lines result }
        // keys that may be imported: well formed, and rising by key ID
        ensures listed { (lines : List (List ℕ)) → HasRead self lines → IfOk result (λ blocks. AreImportable blocks.keys) }
        ensures stays { IfErr self (λ e. result ≡ Err e) }
    {
        let Listing {
            alloc,
            progress,
            stop,
        } = self;
        match stop {
            Some(stop) => Err(stop),
            None => {
                let number = progress.lines.saturating_add(1);
                match progress.into_blocks(alloc) {
                    Ok(blocks) => Ok(blocks),
                    Err(e) => Err(stop_at(number, e)),
                }
            }
        }
    }
}

/// What an error in the line of this number is to the listing.
fn stop_at(number: u64, e: LineError) -> ListingError
    ensures { result ≡ stop_of number e }
{
    match e {
        LineError::Failed(what) => ListingError::Fault(ListingFault { line: number, what }),
        LineError::Memory => ListingError::Memory,
    }
}
