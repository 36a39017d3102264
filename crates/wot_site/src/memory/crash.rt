//! What a crash may leave of a site in memory.

ghost use Rattle.std.specs.Prelude.{◌≡◌, IfOk};
ghost use Rattle.wot_site.specs.Disk.{IsCrashImage};
ghost use Rattle.wot_site.specs.MemorySide.{IsPicked, disk};

use crate::memory::side::MemorySide;
use std::alloc::Global;
use wot_types::Mem;

/// Which image a crash leaves.
#[derive(Clone, Copy, Debug, PartialEq, Eq)]
pub enum Pick {
    /// No pending write was made.
    Nothing,
    /// Every one was made.
    All,
    /// Each pending range holds this byte throughout.
    Fill(u8),
}

/// The image of one side.
pub fn image_of(alloc: Global, side: &MemorySide, pick: Pick) -> Result<Vec<u8>, Mem>
    ensures image { IfOk result (λ v. IsCrashImage (disk side.now) v.items) }
    ensures which { IfOk result (λ v. IsPicked pick side.now v.items) }
{
    match pick {
        Pick::Nothing => side.without(alloc),
        Pick::All => side.with_all(alloc),
        Pick::Fill(byte) => side.with_fill(alloc, byte),
    }
}
