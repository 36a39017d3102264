//! The values of a record's fields.

ghost use Rattle.std.specs.Prelude.{◌≡◌, ◌∷◌, [], Some, IfOk};
ghost use Rattle.std.specs.List.{filter, list_all};
ghost use Rattle.wot_types.specs.Dates.{date_or_0};
ghost use Rattle.wot_types.specs.Fields as fields;
ghost use Rattle.wot_types.specs.Fingerprint.{fingerprint};
ghost use Rattle.wot_types.specs.Listing.{first_failing, is_bad_date};
ghost use Rattle.wot_types.specs.Numbers.{depth_and_amount, number_or_0, number_up_to};
ghost use Rattle.wot_types.specs.Quotes.{text_of_quoted};
ghost use Rattle.wot_types.specs.Records as records;
ghost use Rattle.wot_listing.specs.Answer.{Answers, Gives, Makes};

use crate::digits::hex_bytes;
use crate::error::LineError;
use hex::FromHex;
use std::alloc::Global;
use wot_fields::{Fields, date_or_0, field, number, number_or_0, unquote};
use wot_types::{
    Caps, Fpr, KeyId, ListingWhat, Mem, RecordKind, Text, UserHash, UserKind, is_capability,
    is_hash_byte,
};

/// The type of a record, by its first field: no other field is looked for.
pub fn kind_of(line: &[u8]) -> RecordKind
    ensures { result ≡ records.kind_of line.now }
{
    kind_of_name(first_field(line))
}

fn first_field(line: &[u8]) -> &[u8]
    ensures { result.now ≡ fields.field 1 line.now }
{
    field(line, 1).unwrap_or(&[])
}

fn kind_of_name(name: &[u8]) -> RecordKind
    ensures { result ≡ records.kind_of_name name.now }
{
    match name {
        b"pub" => RecordKind::Primary,
        b"fpr" => RecordKind::Fingerprint,
        b"uid" => RecordKind::UserId(UserKind::Uid),
        b"uat" => RecordKind::UserId(UserKind::Uat),
        b"sig" | b"rev" => RecordKind::Signature,
        b"sub" | b"ssb" => RecordKind::Subkey,
        b"sec" | b"crt" | b"crs" => RecordKind::Foreign,
        _ => RecordKind::Other,
    }
}

/// A number; an empty field is 0.
pub fn number_in(line: &Fields<'_>, n: u32) -> Result<u32, LineError>
    ensures { Gives result (number_or_0 (fields.field n line.now)) ListingWhat.BadNumber }
{
    let number = number_or_0(line.get_or_empty(n));
    number.ok().ok_or(LineError::Failed(ListingWhat::BadNumber))
}

/// When it was made, in field 6, and when it expires, in field 7.
pub fn dates_in(line: &Fields<'_>) -> Result<(u32, u32), LineError>
    ensures { Answers result (first_failing ((is_bad_date 6 line.now, ListingWhat.BadDate) ∷ (is_bad_date 7 line.now, ListingWhat.BadDate) ∷ []))
        (λ dates. (date_or_0 (fields.field 6 line.now) ≡ Some dates.0) × (date_or_0 (fields.field 7 line.now) ≡ Some dates.1)) }
{
    let made = date_in(line, 6)?;
    let expires = date_in(line, 7)?;
    Ok((made, expires))
}

/// A date in seconds since 1970; an empty field is 0.
fn date_in(line: &Fields<'_>, n: u32) -> Result<u32, LineError>
    ensures { Gives result (date_or_0 (fields.field n line.now)) ListingWhat.BadDate }
{
    let date = date_or_0(line.get_or_empty(n));
    date.ok().ok_or(LineError::Failed(ListingWhat::BadDate))
}

/// The text of a quoted field.
pub fn text_in(alloc: Global, line: &Fields<'_>, n: u32) -> Result<Text, LineError>
    ensures { Makes result (text_of_quoted (fields.field n line.now)) ListingWhat.BadQuote }
{
    Ok(unquote(alloc, line.get_or_empty(n))?)
}

/// The depth and the amount of a trust signature in field 8.
pub fn trust_in(line: &Fields<'_>) -> Result<(u8, u8), LineError>
    ensures { Gives result (depth_and_amount (fields.field 8 line.now)) ListingWhat.BadTrustField }
{
    read_trust(line.get_or_empty(8)).ok_or(LineError::Failed(ListingWhat::BadTrustField))
}

/// The key ID in field 5.
pub fn key_id_in(line: &Fields<'_>) -> Result<KeyId, LineError>
    ensures { Gives result (records.key_id (fields.field 5 line.now)) ListingWhat.BadHex }
{
    read_key_id(line.get_or_empty(5)).ok_or(LineError::Failed(ListingWhat::BadHex))
}

/// The issuer's fingerprint in field 13. What is no fingerprint there is none, and no fault.
pub fn issuer_fpr_in(line: &Fields<'_>) -> Option<Fpr>
    ensures { result ≡ fingerprint (fields.field 13 line.now) }
{
    read_fingerprint(line.get_or_empty(13))
}

/// The fingerprint in field 10.
pub fn fingerprint_in(line: &Fields<'_>) -> Result<Fpr, LineError>
    ensures { Gives result (fingerprint (fields.field 10 line.now)) ListingWhat.BadHex }
{
    read_fingerprint(line.get_or_empty(10)).ok_or(LineError::Failed(ListingWhat::BadHex))
}

/// The signature class in field 11.
pub fn class_in(line: &Fields<'_>) -> Result<u8, LineError>
    ensures { Gives result (records.class_of (fields.field 11 line.now)) ListingWhat.BadHex }
{
    read_class(line.get_or_empty(11)).ok_or(LineError::Failed(ListingWhat::BadHex))
}

/// Nothing is no trust signature, else there are two numbers with one space between.
fn read_trust(f: &[u8]) -> Option<(u8, u8)>
    ensures { result ≡ depth_and_amount f.now }
{
    if f.is_empty() {
        return Some((0, 0));
    }
    let space = f.iter().position(|b| *b == b' ')?;
    byte(&f[..space]).zip(byte(&f[space + 1..]))
}

/// A number up to 255.
fn byte(f: &[u8]) -> Option<u8>
    ensures { result ≡ number_up_to 255 f.now }
{
    u8::try_from(number(f).ok()?).ok()
}

fn read_key_id(f: &[u8]) -> Option<KeyId>
    ensures { result ≡ records.key_id f.now }
{
    let bytes = hex_bytes::<8>(f)?;
    Some(KeyId(u64::from_be_bytes(bytes)))
}

/// Most are of version 4 keys, and most fields without one are empty.
fn read_fingerprint(f: &[u8]) -> Option<Fpr>
    ensures { result ≡ fingerprint f.now }
{
    if f.is_empty() {
        return None;
    }
    match hex_bytes::<20>(f) {
        Some(bytes) => Fpr::from_bytes(&bytes),
        None => Fpr::from_hex(f),
    }
}

/// The byte that the first two digits spell.
fn read_class(f: &[u8]) -> Option<u8>
    ensures { result ≡ records.class_of f.now }
{
    match f {
        [high, low, ..] => {
            let [class] = <[u8; 1]>::from_hex(&[*high, *low]).ok()?;
            Some(class)
        }
        _ => None,
    }
}

/// Whether the class in field 11 is marked local.
pub fn is_local(line: &Fields<'_>) -> bool
    ensures { result ≡ records.is_local_at line.now }
{
    matches!(line.get_or_empty(11), [_, _, b'l', ..])
}

/// The letters of field 12, without `D`. Most have nothing else, and are copied whole.
pub fn capabilities_in(alloc: Global, line: &Fields<'_>) -> Result<Caps, Mem>
    ensures { IfOk result (λ caps. caps ≡ records.capabilities_at line.now) }
{
    let field = line.get_or_empty(12);
    if are_capabilities(field) {
        Caps::from_bytes(alloc, field)
    } else {
        capability_bytes(alloc, field)
    }
}

/// Whether a field holds letters of capabilities alone.
fn are_capabilities(f: &[u8]) -> bool
    ensures { result ≡ list_all records.is_capability f.now }
{
    f.iter().all(|b| is_capability(*b))
}

/// The letters of capabilities in a field.
fn capability_bytes(alloc: Global, f: &[u8]) -> Result<Caps, Mem>
    ensures { IfOk result (λ caps. caps ≡ filter records.is_capability f.now) }
{
    let caps: Vec<u8> = f
        .iter()
        .copied()
        .filter(|b| is_capability(*b))
        .collect(alloc)?;
    Caps::from_bytes(alloc, &caps)
}

/// The letters and digits of field 8. Most have nothing else, and are copied whole.
pub fn hash_in(alloc: Global, line: &Fields<'_>) -> Result<UserHash, Mem>
    ensures { IfOk result (λ hash. hash ≡ records.hash_at line.now) }
{
    let field = line.get_or_empty(8);
    if is_hash(field) {
        UserHash::from_bytes(alloc, field)
    } else {
        hash_bytes(alloc, field)
    }
}

/// Whether a field holds letters and digits alone.
fn is_hash(f: &[u8]) -> bool
    ensures { result ≡ list_all records.is_hash_byte f.now }
{
    f.iter().all(|b| is_hash_byte(*b))
}

/// The letters and digits of a field.
fn hash_bytes(alloc: Global, f: &[u8]) -> Result<UserHash, Mem>
    ensures { IfOk result (λ hash. hash ≡ filter records.is_hash_byte f.now) }
{
    let hash: Vec<u8> = f
        .iter()
        .copied()
        .filter(|b| is_hash_byte(*b))
        .collect(alloc)?;
    UserHash::from_bytes(alloc, &hash)
}

/// Whether field 2 begins with `!`: a signature that was checked and is good.
pub fn is_good(line: &Fields<'_>) -> bool
    ensures { result ≡ records.is_good line.now }
{
    matches!(line.get_or_empty(2), [b'!', ..])
}

/// Whether field 2 begins with `r`.
pub fn is_marked_revoked(line: &Fields<'_>) -> bool
    ensures { result ≡ records.is_revoked_at line.now }
{
    matches!(line.get_or_empty(2), [b'r', ..])
}
