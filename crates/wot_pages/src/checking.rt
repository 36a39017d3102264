//! Checking the seals of pages that were read.

ghost use Rattle.std.specs.Prelude.{◌≡◌, ◌+◌, ◌*◌, ◌≤◌, length, IfOk};
ghost use Rattle.std.specs.Int.{div_ceil};
ghost use Rattle.wot_types.specs.PagePlaces.{content_size};
ghost use Rattle.wot_pages.specs.Checking.{first_wrong};
ghost use Rattle.wot_workers.specs.Pieces.{IsPieceSize, IsByPlace};

use crate::page::{CONTENT, seal};
use std::alloc::{AllocError, Global};
use std::thread::{Threads, map_chunks};
use wot_workers::{Gate, Workers, first_some, piece_size};

// The first of these pages, from the one with that number on, whose seal isn't that of its content.
fn first_wrong(epoch: u64, from: u64, contents: &[u8], seals: &[[u8; 32]]) -> Option<u64>
    requires there { content_size * (from + length seals.now) ≤ length contents.now }
    ensures { result ≡ first_wrong epoch from contents.now seals.now }
{
    for i in 0..seals.len() {
        let k = from + i as u64;
        let at = k as usize * CONTENT;
        if seals[i] != seal(epoch, k, &contents[at..at + CONTENT]) {
            return Some(k);
        }
    }
    None
}

// What the workers tell, piece by piece.
fn check_pieces<R: Threads + Sync, G: Gate + Sync>(
    workers: &Workers<'_, R, G>,
    alloc: Global,
    epoch: u64,
    contents: &[u8],
    seals: &[[u8; 32]],
    size: usize,
) -> Result<Vec<Option<u64>>, AllocError>
    requires size { IsPieceSize workers.now.count (length seals.now) size }
    requires there { content_size * length seals.now ≤ length contents.now }
    ensures { IfOk result (λ told. IsByPlace (λ from piece. first_wrong epoch from contents.now piece) size seals.now told.items) }
{
    map_chunks(
        workers.rt,
        alloc,
        seals,
        size,
        &|start: usize, piece: &[[u8; 32]]| -> Option<u64>
            requires { content_size * (start + length piece.now) ≤ length contents.now }
            ensures { result ≡ first_wrong epoch start contents.entry.now piece.entry.now }
        { first_wrong(epoch, start as u64, contents, piece) },
    )
}

/// The first of the pages with these contents and seals whose seal isn't that of its content. The workers call no gate.
pub fn check_seals<R: Threads + Sync, G: Gate + Sync>(
    workers: &Workers<'_, R, G>,
    alloc: Global,
    epoch: u64,
    contents: &[u8],
    seals: &[[u8; 32]],
) -> Result<Option<u64>, AllocError>
    requires there { content_size * length seals.now ≤ length contents.now }
    ensures { IfOk result (λ fault. fault ≡ first_wrong epoch 0 contents.now seals.now) }
{
    let size = piece_size(seals.len(), workers.count);
    let told = check_pieces(workers, alloc, epoch, contents, seals, size)?;
    Ok(first_some(&told))
}
