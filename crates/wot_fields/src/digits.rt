//! Numbers as they are printed in a field.

ghost use Rattle.std.specs.Prelude.{◌≡◌, OnOk};
ghost use Rattle.std.specs.Fmt.{decimal};

use crate::sink::Sink;

/// Adds a number in decimal at the end.
pub fn push_number<W: Sink>(text: &mut W, number: u64) -> Result<(), W::Error>
    ensures same { W.name text.new ≡ W.name text.old }
    ensures adds { OnOk result (W.adds text.old (decimal number) text.new) }
{
    let mut buffer = itoa::Buffer::new();
    text.push_bytes(buffer.format(number).as_bytes())
}
