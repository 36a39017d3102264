//! The block of a command, which is read as it comes.

ghost use Rattle.std.specs.Prelude.{◌≡◌, ◌∷◌, [], ◌++◌, ◌&&◌, not, List, Result, Some, OnOk};
ghost use Rattle.std.specs.Option.{option_copied};
ghost use Rattle.wot_types.specs.declared.head.Head.{Head};
ghost use Rattle.wot_types.specs.Commands.{Command, ReadLine, ends_block, with_line};
ghost use Rattle.wot_answer.specs.Block.{HasHad, IsBlockOf};

use crate::words::{ends_block, without_return};
use wot_listing::{Listing, ListingError};
use wot_ownertrust::OwnertrustText;
use wot_types::{Mem, Refusal};

/// A block that has not ended.
#[derive(Drop)]
pub struct Block {
    /// It goes to the end of the input: no line ends it.
    pub to_end: bool,
    pub body: Body,
}

/// What the lines of a block have come to.
#[derive(Drop)]
pub enum Body {
    /// The command is refused already: of its lines only the length and the end are looked at.
    Refused(Refusal),
    /// A listing to import.
    Listing(Listing),
    /// An ownertrust text.
    Ownertrust(OwnertrustText),
}

impl Block {
    /// Whether a line ends the block; None is one that is too long.
    pub fn is_ended_by(&self, line: Option<&[u8]>) -> bool
        ensures { result ≡ (not self.now.to_end && ends_block (option_copied line.entry)) }
    {
        !self.to_end && ends_block(line)
    }

    /// Reads a line of the block; None is one that is too long.
    pub fn add_line(&mut self, line: Option<&[u8]>) -> Result<(), Mem>
        ensures fed { OnOk result ((command : Command) → IsBlockOf self.old command → IsBlockOf self.new (with_line command (option_copied line.entry))) }
    {
        self.body.add_line(line)
    }
}

impl Body {
    /// Reads a line of the block; None is one that is too long.
    pub fn add_line(&mut self, line: Option<&[u8]>) -> Result<(), Mem>
        ensures fed { OnOk result ((head : Result Head Refusal) (lines : List ReadLine)
            → HasHad self.old head lines → HasHad self.new head (lines ++ option_copied line.entry ∷ [])) }
    {
        match line {
            Some(line) => self.add_text(line),
            None => {
                *self = Body::Refused(Refusal::LineTooLong);
                Ok(())
            }
        }
    }

    /// Reads a line that isn't too long.
    fn add_text(&mut self, line: &[u8]) -> Result<(), Mem>
        ensures fed { OnOk result ((head : Result Head Refusal) (lines : List ReadLine)
            → HasHad self.old head lines → HasHad self.new head (lines ++ Some line.now ∷ [])) }
    {
        let line = without_return(line);
        match self {
            Body::Refused(_) => Ok(()),
            Body::Listing(listing) => match listing.feed_line(line) {
                // A fault is kept by the reader.
                Ok(()) | Err(ListingError::Fault(_)) => Ok(()),
                Err(ListingError::Memory) => Err(Mem::Memory),
            },
            Body::Ownertrust(text) => text.add_line(line),
        }
    }
}
