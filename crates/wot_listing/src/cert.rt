//! Certifications of a user ID.

ghost use Rattle.std.specs.Prelude.{◌≡◌, ◌<◌, ◌∷◌, [], ◌&&◌, ◌==◌, length, nat_lt, not, IfOk, IsSome, if◌then◌else◌};
ghost use Rattle.wot_types.specs.Listing.{cert_checks, first_failing, is_bad_quote, sig_checks};
ghost use Rattle.wot_types.specs.Limits.{longest_scope, most_certs};
ghost use Rattle.wot_types.specs.Records.{cert_of, class_at, depth_at, amount_at, is_kept_class, key_id_at, scope_of, text_at};
ghost use Rattle.wot_listing.specs.Answer.{Answers};

use crate::error::LineError;
use crate::values::{class_in, dates_in, is_local, issuer_fpr_in, key_id_in, text_in, trust_in};
use std::alloc::Global;
use wot_fields::Fields;
use wot_types::{
    Cert, KeyId, Limit, ListingWhat, MOST_CERTS, MOST_SCOPE, Mem, PackedCert, Scope, Text,
    is_kept_class,
};

/// Reads a `sig` or `rev` record that was checked and is good, on the key with this key ID, which has so many certifications before it. One of another class or by the key itself gives None.
pub fn read_cert(
    alloc: Global,
    id: KeyId,
    certs: u32,
    line: &Fields<'_>,
) -> Result<Option<PackedCert>, LineError>
    ensures value { Answers result (first_failing (sig_checks id certs line.now))
        (λ cert. cert ≡ (if is_kept_class (class_at line.now) && not (key_id_at line.now == id) then Some (cert_of line.now) else None)) }
    ensures room { IfOk result (λ cert. IsSome cert → certs < most_certs) }
{
    if line.has_fewer(11) {
        return Err(LineError::Failed(ListingWhat::ShortRecord));
    }
    let class = class_in(line)?;
    if !is_kept_class(class) {
        return Ok(None);
    }
    let issuer = key_id_in(line)?;
    if issuer == id {
        return Ok(None);
    }
    let cert = read_values(alloc, class, issuer, line)?;
    if certs >= MOST_CERTS {
        return Err(LineError::Failed(ListingWhat::LimitReached(Limit::Certs)));
    }
    Ok(Some(PackedCert::pack(alloc, cert)?))
}

/// The certification of this class and by this issuer.
fn read_values(
    alloc: Global,
    class: u8,
    issuer: KeyId,
    line: &Fields<'_>,
) -> Result<Cert, LineError>
    ensures { Answers result (first_failing (cert_checks line.now)) (λ cert. cert ≡ record (cert_of line.now) { class = class; issuer = issuer }) }
{
    let (made, expires) = dates_in(line)?;
    let (depth, amount) = trust_in(line)?;
    let scope = scope_in(alloc, line)?;
    Ok(Cert {
        issuer,
        class,
        local: is_local(line),
        made,
        expires,
        depth,
        amount,
        scope,
        issuer_fpr: issuer_fpr_in(line),
    })
}

/// The regular expression in field 9.
fn scope_in(alloc: Global, line: &Fields<'_>) -> Result<Option<Scope>, LineError>
    ensures { Answers result (first_failing ((is_bad_quote 9 line.now, ListingWhat.BadQuote)
        ∷ (nat_lt longest_scope (length (text_at 9 line.now)), ListingWhat.LimitReached Limit.Scope) ∷ [])) (λ scope. scope ≡ scope_of (text_at 9 line.now)) }
{
    if line.get_or_empty(9).is_empty() {
        return Ok(None);
    }
    let text = text_in(alloc, line, 9)?;
    if text.as_bytes().len() > MOST_SCOPE {
        return Err(LineError::Failed(ListingWhat::LimitReached(Limit::Scope)));
    }
    Ok(scope_from(alloc, text)?)
}

/// A regular expression that is empty is none.
fn scope_from(alloc: Global, text: Text) -> Result<Option<Scope>, Mem>
    ensures { IfOk result (λ scope. scope ≡ scope_of text) }
{
    if text.as_bytes().is_empty() {
        Ok(None)
    } else {
        Ok(Some(Scope::new(alloc, text)?))
    }
}
