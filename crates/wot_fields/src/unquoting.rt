//! Texts that quoted fields spell.

ghost use Rattle.std.specs.Prelude.{◌≡◌, ◌==◌, ◌+◌, ◌<◌, not, ℕ, List, length, IfOk, IfSome, IsErrOf, Some, None, option_map};
ghost use Rattle.std.specs.List.{list_all};
ghost use Rattle.hex.specs.Hex.{hex_digit_value};
ghost use Rattle.wot_types.specs.Bytes.{backslash};
ghost use Rattle.wot_types.specs.Quotes as quotes;

use std::alloc::{AllocError, AllocFailed, Global};
use thiserror::Error;
use wot_types::Text;

/// Why a quoted field gives no text.
#[derive(Clone, Copy, Debug, PartialEq, Eq, Drop, Error)]
pub enum QuoteError {
    #[error("bad quote")]
    BadQuote,
    #[error("out of memory")]
    Memory,
}

impl From<AllocError> for QuoteError {
    ghost use Rattle.wot_fields.specs.declared.unquoting.QuoteError.TheVariants as quote_error;

    ghost from_gives = { λ _ e. e ≡ quote_error.Memory };

    fn from(_e: AllocError) -> QuoteError {
        QuoteError::Memory
    }
}

impl<T: Drop> From<AllocFailed<T>> for QuoteError {
    ghost use Rattle.wot_fields.specs.declared.unquoting.QuoteError.TheVariants as quote_error;

    ghost from_gives = { λ _ e. e ≡ quote_error.Memory };

    fn from(_e: AllocFailed<T>) -> QuoteError {
        QuoteError::Memory
    }
}

/// The text that a quoted field spells.
#[tactic(auto, using(crate::proofs::QuoteLaws::text_of_quoted_sound, crate::proofs::QuoteLaws::only_text, crate::proofs::QuoteLaws::no_text))]
pub fn unquote(alloc: Global, f: &[u8]) -> Result<Text, QuoteError>
    ensures spelled { IfOk result (λ t. quotes.Quoted t f.now) }
    ensures only_text { IfOk result (λ t. (other : List ℕ) → quotes.Quoted other f.now → other ≡ t) }
    ensures bad_quote { IsErrOf result QuoteError.BadQuote → (t : List ℕ) → quotes.Quoted t f.now → ⊥ }
    ensures value { IfOk result (λ t. quotes.text_of_quoted f.now ≡ Some t) }
    ensures no_value { IsErrOf result QuoteError.BadQuote → quotes.text_of_quoted f.now ≡ None }
{
    let text = spelled_bytes(alloc, f)?;
    Ok(Text::from_vec(text))
}

/// The decoder by which a listing's texts are defined has the text that the relation has, and none where the relation has none.
#[tactic(auto, using(crate::proofs::QuoteLaws::text_of_quoted_sound, crate::proofs::QuoteLaws::text_of_quoted_complete, crate::proofs::QuoteLaws::no_text))]
pub fn decoder_is_the_quoting_relation()
    ensures only_texts { (f text : List ℕ) → quotes.text_of_quoted f ≡ Some text → quotes.Quoted text f }
    ensures each_text { (f text : List ℕ) → quotes.Quoted text f → quotes.text_of_quoted f ≡ Some text }
    ensures bad_quote { (f text : List ℕ) → quotes.text_of_quoted f ≡ None → quotes.Quoted text f → ⊥ }
{}

/// The bytes that a field spells. Most fields have no escape, and are copied whole.
#[tactic(auto, using(crate::proofs::QuoteLaws::text_of_plain))]
fn spelled_bytes(alloc: Global, f: &[u8]) -> Result<Vec<u8>, QuoteError>
    ensures value { IfOk result (λ t. quotes.text_of_quoted f.now ≡ Some t.items) }
    ensures no_value { IsErrOf result QuoteError.BadQuote → quotes.text_of_quoted f.now ≡ None }
{
    if !is_plain(f) {
        return unquoted_bytes(alloc, f);
    }
    Ok(Vec::from_slice(alloc, f)?)
}

/// Whether no byte of a field is a backslash.
fn is_plain(f: &[u8]) -> bool
    ensures { result ≡ list_all (λ b. not (b == backslash)) f.now }
{
    f.iter().all(|b| *b != b'\\')
}

/// The bytes that a field spells, one after another.
fn unquoted_bytes(alloc: Global, f: &[u8]) -> Result<Vec<u8>, QuoteError>
    ensures value { IfOk result (λ t. quotes.text_of_quoted f.now ≡ Some t.items) }
    ensures no_value { IsErrOf result QuoteError.BadQuote → quotes.text_of_quoted f.now ≡ None }
{
    let mut text = Vec::with_capacity(alloc, f.len())?;
    let mut rest = f;
    while !rest.is_empty() {
        let Some((b, after)) = first_byte(rest) else {
            return Err(QuoteError::BadQuote);
        };
        text.push(b)?;
        rest = after;
    }
    Ok(text)
}

/// The byte that the front of a field spells, and what follows its spelling.
fn first_byte(f: &[u8]) -> Option<(u8, &[u8])>
    ensures value { option_map (λ w. (w.0, w.1.now)) result ≡ quotes.quoted_front f.now }
    ensures shorter { IfSome result (λ w. length w.1.now < length f.now) }
{
    match f {
        [b'\\', rest @ ..] => escape(rest),
        [b, rest @ ..] => Some((*b, rest)),
        [] => None,
    }
}

/// The same of an escape, after its backslash.
fn escape(f: &[u8]) -> Option<(u8, &[u8])>
    ensures value { option_map (λ w. (w.0, w.1.now)) result ≡ quotes.escape_front f.now }
    ensures shorter { IfSome result (λ w. length w.1.now < length f.now) }
{
    match f {
        [b'x', high, low, rest @ ..] => Some((hex_pair(*high, *low)?, rest)),
        [c, rest @ ..] => Some((short_escape(*c)?, rest)),
        [] => None,
    }
}

/// The byte that a backslash and this letter write.
fn short_escape(c: u8) -> Option<u8>
    ensures { result ≡ quotes.short_escape c }
{
    match c {
        b'n' => Some(b'\n'),
        b'r' => Some(b'\r'),
        b't' => Some(b'\t'),
        b'f' => Some(12),
        b'v' => Some(11),
        b'b' => Some(8),
        b'0' => Some(0),
        b'\\' => Some(b'\\'),
        _ => None,
    }
}

fn hex_pair(high: u8, low: u8) -> Option<u8>
    ensures { result ≡ quotes.hex_pair high low }
{
    Some(16 * hex_digit(high)? + hex_digit(low)?)
}

/// The value of a hexadecimal digit in either case.
fn hex_digit(c: u8) -> Option<u8>
    ensures value { result ≡ hex_digit_value c }
    ensures small { IfSome result (λ v. v < 16) }
{
    match c {
        b'A'..=b'F' => Some(c - b'A' + 10),
        b'a'..=b'f' => Some(c - b'a' + 10),
        b'0'..=b'9' => Some(c - b'0'),
        _ => None,
    }
}
