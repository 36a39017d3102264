//! The lines of a listing, each by what it shows (doc/DETAILS).

ghost use Rattle.std.specs.Prelude.{◌≡◌, ◌==◌, ◌&&◌, ◌++◌, OnOk, codes};
ghost use Rattle.wot_types.specs.Printing.{capabilities_text, cert_line, class_text, depth_text, ended_field, expiry_field, fpr_line, issuer_fpr_text, key_id_text, number_field, pub_line, tru_line, user_line};
ghost use Rattle.wot_types.specs.Trust.{trust_text};
ghost use Rattle.wot_lines.specs.Shown.{shown_key, shown_user};

use crate::fields::{
    push_expiry, push_field, push_fpr_field, push_key_id_field, push_number_field,
    push_quoted_field, push_scope,
};
use crate::names::{cert_name, kind_text, letter_text, model_text, trust_text};
use wot_fields::{Sink, push_number};
use wot_table::{KeyHead, UserHead};
use wot_types::{Caps, Fpr, KeyId, Letter, Options, Ownertrust, PackedPlaced};

/// `tru::MODEL:DATE:NEXT:MARGINALS:COMPLETES:DEPTH`
pub fn push_tru<W: Sink>(
    text: &mut W,
    options: &Options,
    date: u32,
    next: u32,
) -> Result<(), W::Error>
    ensures same { W.name text.new ≡ W.name text.old }
    ensures adds { OnOk result (W.adds text.old (tru_line options.now date next) text.new) }
{
    text.push_bytes(b"tru::")?;
    push_field(text, model_text(options))?;
    push_number_field(text, date)?;
    push_number_field(text, next)?;
    push_number_field(text, options.marginals)?;
    push_number_field(text, options.completes)?;
    push_number(text, u64::from(options.depth))?;
    text.push(b'\n')?;
    Ok(())
}

/// `pub:LETTER:BITS:ALGO:KEYID:MADE:EXP::OWNERTRUST:::CAPS:`
pub fn push_pub<W: Sink>(
    text: &mut W,
    letter: Letter,
    kept: Ownertrust,
    id: KeyId,
    key: &KeyHead<'_>,
) -> Result<(), W::Error>
    ensures same { W.name text.new ≡ W.name text.old }
    ensures adds { OnOk result (W.adds text.old (pub_line letter kept id (shown_key key.now)) text.new) }
{
    text.push_bytes(b"pub:")?;
    push_field(text, letter_text(letter))?;
    push_numbers(text, key.bits, key.algo, id)?;
    push_dates(text, key.made, key.expires)?;
    text.push(b':')?;
    push_use(text, kept, key.caps)?;
    text.push(b'\n')?;
    Ok(())
}

/// A key's numbers: `BITS:ALGO:KEYID:`
fn push_numbers<W: Sink>(text: &mut W, bits: u32, algo: u32, id: KeyId) -> Result<(), W::Error>
    ensures same { W.name text.new ≡ W.name text.old }
    ensures adds { OnOk result (W.adds text.old (number_field bits ++ number_field algo ++ ended_field (key_id_text id)) text.new) }
{
    push_number_field(text, bits)?;
    push_number_field(text, algo)?;
    push_key_id_field(text, id)
}

/// When something was made and when it expires: `MADE:EXP:`
fn push_dates<W: Sink>(text: &mut W, made: u32, expires: u32) -> Result<(), W::Error>
    ensures same { W.name text.new ≡ W.name text.old }
    ensures adds { OnOk result (W.adds text.old (number_field made ++ expiry_field expires) text.new) }
{
    push_number_field(text, made)?;
    push_expiry(text, expires)
}

/// How far a key is trusted and what it can do: `OWNERTRUST:::CAPS:`
fn push_use<W: Sink>(text: &mut W, kept: Ownertrust, caps: &Caps) -> Result<(), W::Error>
    ensures same { W.name text.new ≡ W.name text.old }
    ensures adds { OnOk result (W.adds text.old (ended_field (trust_text kept.trust) ++ codes "::" ++ ended_field (capabilities_text kept.disabled caps.now)) text.new) }
{
    push_field(text, trust_text(kept.trust))?;
    text.push_bytes(b"::")?;
    push_capabilities(text, caps, kept.disabled)
}

/// The capabilities, with `D` where the key is disabled.
fn push_capabilities<W: Sink>(text: &mut W, caps: &Caps, disabled: bool) -> Result<(), W::Error>
    ensures same { W.name text.new ≡ W.name text.old }
    ensures adds { OnOk result (W.adds text.old (ended_field (capabilities_text disabled caps.now)) text.new) }
{
    text.push_bytes(caps.as_bytes())?;
    push_field(text, if disabled { b"D" } else { b"" })
}

/// `fpr:::::::::FINGERPRINT:`
pub fn push_fpr<W: Sink>(text: &mut W, fpr: &Fpr) -> Result<(), W::Error>
    ensures same { W.name text.new ≡ W.name text.old }
    ensures adds { OnOk result (W.adds text.old (fpr_line fpr.now) text.new) }
{
    text.push_bytes(b"fpr:::::::::")?;
    push_fpr_field(text, fpr)?;
    text.push(b'\n')?;
    Ok(())
}

/// `uid:LETTER::::MADE:EXP:HASH::TEXT:`
pub fn push_user<W: Sink>(text: &mut W, letter: Letter, user: &UserHead<'_>) -> Result<(), W::Error>
    ensures same { W.name text.new ≡ W.name text.old }
    ensures adds { OnOk result (W.adds text.old (user_line letter (shown_user user.now)) text.new) }
{
    push_field(text, kind_text(user.kind))?;
    push_field(text, letter_text(letter))?;
    text.push_bytes(b":::")?;
    push_dates(text, user.made, user.expires)?;
    push_field(text, user.hash.as_bytes(&mut [0; 40]))?;
    text.push(b':')?;
    push_quoted_field(text, user.text)?;
    text.push(b'\n')?;
    Ok(())
}

/// `sig:!:::ISSUER:MADE:EXP:TRUST:SCOPE::CLASS:`, and `:FINGERPRINT:` behind it where the issuer's fingerprint is named.
pub fn push_cert<W: Sink>(text: &mut W, placed: &PackedPlaced) -> Result<(), W::Error>
    ensures same { W.name text.new ≡ W.name text.old }
    ensures adds { OnOk result (W.adds text.old (cert_line placed.now.cert) text.new) }
{
    push_field(text, cert_name(placed))?;
    text.push_bytes(b"!:::")?;
    push_key_id_field(text, placed.issuer())?;
    push_dates(text, placed.made(), placed.expires())?;
    push_depth(text, placed)?;
    push_scope(text, placed.scope())?;
    text.push(b':')?;
    push_class(text, placed)?;
    push_issuer_fpr(text, &placed.issuer_fpr())?;
    text.push(b'\n')?;
    Ok(())
}

/// The issuer's fingerprint behind an empty field, or nothing where none is named.
fn push_issuer_fpr<W: Sink>(text: &mut W, named: &Option<Fpr>) -> Result<(), W::Error>
    ensures same { W.name text.new ≡ W.name text.old }
    ensures adds { OnOk result (W.adds text.old (issuer_fpr_text named.now) text.new) }
{
    match named {
        None => text.push_bytes(b""),
        Some(fpr) => {
            text.push(b':')?;
            push_fpr_field(text, fpr)
        }
    }
}

/// The depth and the amount of a trust signature, or nothing where both are 0.
fn push_depth<W: Sink>(text: &mut W, placed: &PackedPlaced) -> Result<(), W::Error>
    ensures same { W.name text.new ≡ W.name text.old }
    ensures adds { OnOk result (W.adds text.old (ended_field (depth_text placed.now.cert)) text.new) }
{
    if is_ordinary(placed) {
        return push_field(text, b"");
    }
    push_number(text, u64::from(placed.depth()))?;
    text.push(b' ')?;
    push_number_field(text, u32::from(placed.amount()))?;
    Ok(())
}

/// Whether a certification is an ordinary one, and no trust signature.
fn is_ordinary(placed: &PackedPlaced) -> bool
    ensures { result ≡ ((placed.now.cert.depth == 0) && (placed.now.cert.amount == 0)) }
{
    placed.depth() == 0 && placed.amount() == 0
}

/// The class in two digits, and `l` where the certification is local, else `x`.
fn push_class<W: Sink>(text: &mut W, placed: &PackedPlaced) -> Result<(), W::Error>
    ensures same { W.name text.new ≡ W.name text.old }
    ensures adds { OnOk result (W.adds text.old (ended_field (class_text placed.now.cert)) text.new) }
{
    let mut digits = [0; 2];
    hex::encode_to_slice(&[placed.class()], &mut digits).unwrap();
    text.push_bytes(&digits)?;
    text.push(if placed.is_local() { b'l' } else { b'x' })?;
    text.push(b':')?;
    Ok(())
}
