//! A line of an ownertrust text: blank, a comment, or `FINGERPRINT:NUMBER:`.

ghost use Rattle.std.specs.Prelude.{◌≡◌, ◌++◌, ◌∷◌, [], IfOk};
ghost use Rattle.wot_types.specs.Fingerprint.{fingerprint};
ghost use Rattle.wot_types.specs.Numbers.{number};
ghost use Rattle.wot_types.specs.Ownertrust.{kept_of, ownertrust_line};
ghost use Rattle.wot_types.specs.OwnertrustText.{entry_by, entry_of_line};

use std::alloc::Global;
use wot_fields::{Fields, Printed, is_blank, is_comment, number, push_ownertrust_line};
use wot_types::{Entry, Fpr, Mem, Ownertrust, OwnertrustFault, Text};

/// The entry of a line, and None for a blank line, a comment or the number 0. The line has no newline.
#[tactic(auto, using(crate::proofs::Lines::three_fields))]
pub fn read_line(line: &[u8]) -> Result<Option<Entry>, OwnertrustFault>
    ensures read { result ≡ entry_of_line line.now }
{
    if is_blank(line) || is_comment(line) {
        return Ok(None);
    }
    let fields = Fields::new(line);
    if fields.has_fewer(3) || !fields.has_fewer(4) || !fields.get_or_empty(3).is_empty() {
        return Err(OwnertrustFault::BadShape);
    }
    entry_by(fields.get_or_empty(1), fields.get_or_empty(2))
}

/// The entry of a fingerprint in hexadecimal and a number.
fn entry_by(fpr: &[u8], value: &[u8]) -> Result<Option<Entry>, OwnertrustFault>
    ensures { result ≡ entry_by (fingerprint fpr.now) (number value.now) }
{
    let fpr = Fpr::from_hex(fpr).ok_or(OwnertrustFault::BadFingerprint)?;
    let number = number(value).ok().ok_or(OwnertrustFault::BadValue)?;
    if number == 0 {
        return Ok(None);
    }
    let kept = Ownertrust::from_number(number).ok_or(OwnertrustFault::BadValue)?;
    Ok(Some(Entry {
        fpr,
        trust: kept.trust,
        disabled: kept.disabled,
    }))
}

/// The line of an entry, without a newline.
pub fn write_line(alloc: Global, entry: &Entry) -> Result<Text, Mem>
    ensures printed { IfOk result (λ text. text ++ 10 ∷ [] ≡ ownertrust_line (entry.now.fpr, kept_of entry.now)) }
{
    let mut text = Printed::new(alloc);
    push_ownertrust_line(&mut text, &entry.fpr, entry.kept())?;
    Ok(Text::from_vec(text.into_vec()?))
}
