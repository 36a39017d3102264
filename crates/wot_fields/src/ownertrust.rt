//! A line of an ownertrust text as it is printed.

ghost use Rattle.std.specs.Prelude.{◌≡◌, ◌++◌, ◌∷◌, [], OnOk};
ghost use Rattle.wot_types.specs.Bytes.{newline};
ghost use Rattle.wot_types.specs.Ownertrust.{ownertrust_line};

use crate::digits::push_number;
use crate::printed::Printed;
use crate::sink::Sink;
use wot_types::{Fpr, Mem, Ownertrust};

/// Adds `FINGERPRINT:NUMBER:` at the end, without a newline.
pub fn push_ownertrust_line(text: &mut Printed, fpr: &Fpr, kept: Ownertrust) -> Result<(), Mem>
    ensures { OnOk result (text.new ++ newline ∷ [] ≡ text.old ++ ownertrust_line (fpr.now, kept)) }
{
    text.push_bytes(fpr.as_digits(&mut [0; 64]))?;
    text.push(b':')?;
    push_number(text, u64::from(kept.number()))?;
    text.push(b':')?;
    Ok(())
}
