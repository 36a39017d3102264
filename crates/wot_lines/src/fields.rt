//! Fields at the end of a line that is being printed, each with the colon after it.

ghost use Rattle.std.specs.Prelude.{◌≡◌, OnOk};
ghost use Rattle.std.specs.Option.{option_copied};
ghost use Rattle.hex.specs.Hex.{encode_upper};
ghost use Rattle.wot_types.specs.Printing.{ended_field, expiry_field, key_id_text, number_field, scope_text};
ghost use Rattle.wot_types.specs.Quotes.{printed_text};

use wot_fields::{Sink, push_number, push_quoted};
use wot_types::{Fpr, KeyId, Scope, Text};

pub fn push_field<W: Sink>(text: &mut W, field: &[u8]) -> Result<(), W::Error>
    ensures same { W.name text.new ≡ W.name text.old }
    ensures adds { OnOk result (W.adds text.old (ended_field field.now) text.new) }
{
    text.push_bytes(field)?;
    text.push(b':')?;
    Ok(())
}

pub fn push_number_field<W: Sink>(text: &mut W, number: u32) -> Result<(), W::Error>
    ensures same { W.name text.new ≡ W.name text.old }
    ensures adds { OnOk result (W.adds text.old (number_field number) text.new) }
{
    push_count_field(text, u64::from(number))
}

pub fn push_count_field<W: Sink>(text: &mut W, count: u64) -> Result<(), W::Error>
    ensures same { W.name text.new ≡ W.name text.old }
    ensures adds { OnOk result (W.adds text.old (number_field count) text.new) }
{
    push_number(text, count)?;
    text.push(b':')?;
    Ok(())
}

/// An expiry, or nothing for none.
pub fn push_expiry<W: Sink>(text: &mut W, expires: u32) -> Result<(), W::Error>
    ensures same { W.name text.new ≡ W.name text.old }
    ensures adds { OnOk result (W.adds text.old (expiry_field expires) text.new) }
{
    if expires == 0 {
        push_field(text, b"")
    } else {
        push_number_field(text, expires)
    }
}

/// A fingerprint in hexadecimal.
pub fn push_fpr_field<W: Sink>(text: &mut W, fpr: &Fpr) -> Result<(), W::Error>
    ensures same { W.name text.new ≡ W.name text.old }
    ensures adds { OnOk result (W.adds text.old (ended_field (encode_upper fpr.now)) text.new) }
{
    push_field(text, fpr.as_digits(&mut [0; 64]))
}

pub fn push_key_id_field<W: Sink>(text: &mut W, id: KeyId) -> Result<(), W::Error>
    ensures same { W.name text.new ≡ W.name text.old }
    ensures adds { OnOk result (W.adds text.old (ended_field (key_id_text id)) text.new) }
{
    push_key_id(text, id)?;
    text.push(b':')?;
    Ok(())
}

/// A key ID alone, as 16 digits in upper case.
pub fn push_key_id<W: Sink>(text: &mut W, id: KeyId) -> Result<(), W::Error>
    ensures same { W.name text.new ≡ W.name text.old }
    ensures adds { OnOk result (W.adds text.old (key_id_text id) text.new) }
{
    text.push_bytes(&id.digits())
}

pub fn push_quoted_field<W: Sink>(text: &mut W, field: &Text) -> Result<(), W::Error>
    ensures same { W.name text.new ≡ W.name text.old }
    ensures adds { OnOk result (W.adds text.old (ended_field (printed_text field.now)) text.new) }
{
    push_quoted(text, field.as_bytes())?;
    text.push(b':')?;
    Ok(())
}

/// A regular expression, or nothing for none.
pub fn push_scope<W: Sink>(text: &mut W, scope: Option<&Scope>) -> Result<(), W::Error>
    ensures same { W.name text.new ≡ W.name text.old }
    ensures adds { OnOk result (W.adds text.old (ended_field (scope_text (option_copied scope.entry))) text.new) }
{
    match scope {
        Some(scope) => push_quoted_field(text, scope.as_text()),
        None => push_field(text, b""),
    }
}
