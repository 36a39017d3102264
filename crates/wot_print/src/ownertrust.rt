//! The ownertrust export, as GnuPG writes it.

ghost use Rattle.std.specs.Prelude.{◌≡◌, IfOk};
ghost use Rattle.wot_types.specs.Ownertrust.{ownertrust_text};

use std::alloc::Global;
use wot_fields::{Printed, Sink, push_ownertrust_line};
use wot_live::Engine;
use wot_types::Mem;

/// A line for each ownertrust entry, in rising order of (length, bytes) of the fingerprint.
pub fn export(alloc: Global, engine: &Engine) -> Result<Vec<u8>, Mem>
    ensures { IfOk result (λ text. text.items ≡ ownertrust_text engine.now.trusts) }
{
    let mut text = Printed::new(alloc);
    for (fpr, kept) in engine.trusts().iter() {
        push_ownertrust_line(&mut text, fpr, *kept)?;
        text.push(b'\n')?;
    }
    text.into_vec()
}
