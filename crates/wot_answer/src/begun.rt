//! What words ask for, and the block that follows them.

ghost use Rattle.std.specs.Prelude.{◌≡◌, ◌<◌, length, Err, IfOk};
ghost use Rattle.wot_types.specs.Grammar.{command_of};
ghost use Rattle.wot_answer.specs.Begun.{Begins};

use crate::block::{Block, Body};
use crate::words::has_block;
use std::alloc::Global;
use wot_commands::read_head;
use wot_listing::Listing;
use wot_ownertrust::OwnertrustText;
use wot_types::{Edit, Fpr, Head, Mem, Query, Refusal, Words};

/// What words ask for.
#[derive(Drop)]
pub enum Begun {
    /// Nothing: there are none.
    Nothing,
    /// A command with a block, which has had no line.
    Block(Block),
    /// A command without a block.
    Single(Single),
}

/// A command without a block.
#[derive(Drop)]
pub enum Single {
    Edit(Edit),
    Query(Query),
    /// Takes away the key of this fingerprint, if the keyring has it.
    DeleteKey(Fpr),
    /// Its words are refused.
    Refused(Refusal),
}

/// Reads what words ask for. A block that follows goes to the end of the input, or else a line ends it.
pub fn read_command(alloc: Global, to_end: bool, words: &Words) -> Result<Begun, Mem>
    ensures begins { IfOk result (λ begun. Begins begun words.now to_end) }
{
    if words.is_empty() {
        return Ok(Begun::Nothing);
    }
    match read_head(words) {
        Ok(Head::Import) => {
            let body = Body::Listing(Listing::new(alloc)?);
            Ok(Begun::Block(Block { to_end, body }))
        }
        Ok(Head::Ownertrust) => {
            let body = Body::Ownertrust(OwnertrustText::new(alloc));
            Ok(Begun::Block(Block { to_end, body }))
        }
        Ok(Head::Edit(edit)) => Ok(Begun::Single(Single::Edit(edit))),
        Ok(Head::Query(query)) => Ok(Begun::Single(Single::Query(query))),
        Ok(Head::DeleteKey(fpr)) => Ok(Begun::Single(Single::DeleteKey(fpr))),
        Err(refusal) => Ok(refused(to_end, words, refusal)),
    }
}

/// What words that are refused ask for: the block of such a command is read too, and its name alone says whether one follows.
fn refused(to_end: bool, words: &Words, refusal: Refusal) -> Begun
    requires some { 0 < length words.now }
    requires refused { command_of words.now ≡ Err refusal }
    ensures begins { Begins result words.now to_end }
{
    if has_block(words) {
        let body = Body::Refused(refusal);
        Begun::Block(Block { to_end, body })
    } else {
        Begun::Single(Single::Refused(refusal))
    }
}
