//! The words that stand for values.

ghost use Rattle.std.specs.Prelude.{◌≡◌};
ghost use Rattle.wot_types.specs.Printing.{cert_name, kind_text, letter_text, model_text};
ghost use Rattle.wot_types.specs.Trust.{trust_text};

use wot_types::{Letter, Options, PackedPlaced, REVOCATION, Trust, UserKind};

pub fn model_text(options: &Options) -> &'static [u8]
    ensures { result.now ≡ model_text options.now }
{
    if options.pgp { b"1" } else { b"0" }
}

pub fn letter_text(letter: Letter) -> &'static [u8]
    ensures { result.now ≡ letter_text letter }
{
    match letter {
        Letter::Dash => b"-",
        Letter::Q => b"q",
        Letter::M => b"m",
        Letter::F => b"f",
        Letter::U => b"u",
        Letter::R => b"r",
        Letter::E => b"e",
    }
}

pub fn trust_text(trust: Trust) -> &'static [u8]
    ensures { result.now ≡ trust_text trust }
{
    match trust {
        Trust::Unknown => b"-",
        Trust::Undefined => b"q",
        Trust::Never => b"n",
        Trust::Marginal => b"m",
        Trust::Full => b"f",
        Trust::Ultimate => b"u",
    }
}

pub fn kind_text(kind: UserKind) -> &'static [u8]
    ensures { result.now ≡ kind_text kind }
{
    match kind {
        UserKind::Uid => b"uid",
        UserKind::Uat => b"uat",
    }
}

/// The name of a certification's record.
pub fn cert_name(placed: &PackedPlaced) -> &'static [u8]
    ensures { result.now ≡ cert_name placed.now.cert }
{
    if placed.class() == REVOCATION {
        b"rev"
    } else {
        b"sig"
    }
}
