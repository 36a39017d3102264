//! What is kept of the lines that were read.

ghost use Rattle.std.specs.Prelude.{◌≡◌, ◌∷◌, [], None, option_map};
ghost use Rattle.std.specs.FinMap as map;
ghost use Rattle.wot_types.specs.Listing.{first_failing};
ghost use Rattle.wot_listing.specs.Answer.{Answers};
ghost use Rattle.wot_listing.specs.Machine.{after_block, after_kind, after_line, at_sub, checks_in, failing_in, is_unnamed, progress_of, with_block, with_count};

use crate::block_keys::BlockKeys;
use crate::blocks::Blocks;
use crate::error::LineError;
use crate::key_block::KeyBlock;
use crate::primary::read_primary;
use crate::values::kind_of;
use std::alloc::Global;
use wot_fields::Fields;
use wot_types::{ListingWhat, RecordKind, UserKind};

/// What is kept of the lines so far. The three numbers stand still at 2^64 - 1.
#[derive(Debug, Drop)]
pub struct SoFar {
    pub lines: u64,
    pub keys: BlockKeys,
    pub block: Option<KeyBlock>,
    pub kept: u64,
    pub passed: u64,
}

impl SoFar {
    /// Before the first line.
    pub fn new(alloc: Global) -> SoFar
        ensures { result ≡ progress_of [] }
    {
        SoFar {
            lines: 0,
            keys: BlockKeys::new(alloc),
            block: None,
            kept: 0,
            passed: 0,
        }
    }

    /// Reads a line. After an error what is kept means nothing.
    pub fn add_line(&mut self, alloc: Global, line: &[u8]) -> Result<(), LineError>
        ensures { Answers result (failing_in self.old line.now) (λ _. self.new ≡ after_line self.old line.now) }
    {
        self.feed_record(alloc, kind_of(line), line)?;
        self.lines = self.lines.saturating_add(1);
        Ok(())
    }

    /// Ends the last block: the keys of all blocks.
    pub fn into_blocks(self, alloc: Global) -> Result<Blocks, LineError>
        ensures { Answers result (first_failing ((is_unnamed self.block, ListingWhat.NoFingerprint) ∷ []))
            (λ blocks. (blocks.keys ≡ map.values (after_block self).keys) × (blocks.kept ≡ self.kept) × (blocks.passed ≡ self.passed)) }
    {
        let SoFar {
            lines: _,
            mut keys,
            block,
            kept,
            passed,
        } = self;
        keep_key(&mut keys, block)?;
        Ok(Blocks {
            keys: keys.into_keys(alloc)?,
            kept,
            passed,
        })
    }

    /// Reads a record of this kind. Fields are looked for only where the record's are read.
    fn feed_record(&mut self, alloc: Global, kind: RecordKind, line: &[u8]) -> Result<(), LineError>
        ensures { Answers result (first_failing (checks_in kind self.old line.now)) (λ _. self.new ≡ after_kind kind self.old line.now) }
    {
        match kind {
            RecordKind::Primary => self.feed_primary(alloc, &Fields::new(line)),
            RecordKind::Fingerprint => self.feed_fpr(line),
            RecordKind::UserId(kind) => self.feed_user(alloc, kind, &Fields::new(line)),
            RecordKind::Signature => self.feed_sig(alloc, line),
            RecordKind::Subkey => self.feed_sub(),
            RecordKind::Foreign => self.end_block(),
            RecordKind::Other => Ok(()),
        }
    }

    /// A `pub` ends the block before it, and begins one.
    fn feed_primary(&mut self, alloc: Global, line: &Fields<'_>) -> Result<(), LineError>
        ensures { Answers result (first_failing (checks_in RecordKind.Primary self.old line.now))
            (λ _. self.new ≡ after_kind RecordKind.Primary self.old line.now) }
    {
        self.end_block()?;
        let primary = read_primary(alloc, line)?;
        if self.keys.contains(primary.id) {
            return Err(LineError::Failed(ListingWhat::RepeatedKey));
        }
        self.block = Some(KeyBlock::new(alloc, primary)?);
        Ok(())
    }

    fn feed_fpr(&mut self, line: &[u8]) -> Result<(), LineError>
        ensures { Answers result (first_failing (checks_in RecordKind.Fingerprint self.old line.now))
            (λ _. self.new ≡ after_kind RecordKind.Fingerprint self.old line.now) }
    {
        match &mut self.block {
            Some(block) => block.feed_fpr(line),
            None => Ok(()),
        }
    }

    fn feed_user(
        &mut self,
        alloc: Global,
        kind: UserKind,
        line: &Fields<'_>,
    ) -> Result<(), LineError>
        ensures { Answers result (first_failing (checks_in (RecordKind.UserId kind) self.old line.now))
            (λ _. self.new ≡ after_kind (RecordKind.UserId kind) self.old line.now) }
    {
        match &mut self.block {
            Some(block) => block.feed_user(alloc, kind, line),
            None => Ok(()),
        }
    }

    fn feed_sub(&mut self) -> Result<(), LineError>
        ensures { Answers result None (λ _. self.new ≡ record self.old { block = option_map at_sub self.old.block }) }
    {
        if let Some(block) = &mut self.block {
            block.feed_sub()?;
        }
        Ok(())
    }

    /// A signature is kept or passed.
    fn feed_sig(&mut self, alloc: Global, line: &[u8]) -> Result<(), LineError>
        ensures { Answers result (first_failing (checks_in RecordKind.Signature self.old line.now))
            (λ _. self.new ≡ after_kind RecordKind.Signature self.old line.now) }
    {
        match &mut self.block {
            Some(block) => {
                let kept = block.feed_sig(alloc, line)?;
                self.count_sig(kept);
            }
            None => self.count_sig(false),
        }
        Ok(())
    }

    fn count_sig(&mut self, kept: bool)
        ensures { self.new ≡ with_count kept self.old }
    {
        if kept {
            self.kept = self.kept.saturating_add(1);
        } else {
            self.passed = self.passed.saturating_add(1);
        }
    }

    /// Ends the open block.
    fn end_block(&mut self) -> Result<(), LineError>
        ensures { Answers result (first_failing ((is_unnamed self.old.block, ListingWhat.NoFingerprint) ∷ [])) (λ _. self.new ≡ after_block self.old) }
    {
        let block = self.block.take();
        keep_key(&mut self.keys, block)
    }
}

/// Keeps the key of a block that ends, by its key ID.
fn keep_key(keys: &mut BlockKeys, block: Option<KeyBlock>) -> Result<(), LineError>
    ensures { Answers result (first_failing ((is_unnamed block, ListingWhat.NoFingerprint) ∷ [])) (λ _. keys.new ≡ with_block keys.old block) }
{
    if let Some(block) = block {
        let (id, key) = block.into_key()?;
        keys.insert(id, key)?;
    }
    Ok(())
}
