//! The ranges of what is printed, as its types give them to whoever reads it. Nothing is done when these run.

ghost use Rattle.std.specs.Prelude.{◌^◌, ◌<◌, All};
ghost use Rattle.std.specs.Option.{option_copied};
ghost use Rattle.std.specs.FinMap as map;
ghost use Rattle.hex.specs.Hex.{IsBytes};
ghost use Rattle.wot_types.specs.declared.key.Key.{Key};
ghost use Rattle.wot_types.specs.declared.user.User.{User};
ghost use Rattle.wot_table.specs.Heads.{IsKeyHead, IsUserHead};
ghost use Rattle.wot_print_laws.specs.Fits.{FitsCert, FitsKey, FitsState, FitsUser, IsFprOfBytes, IsScopeOfBytes};

use wot_live::Engine;
use wot_table::{KeyHead, UserHead};
use wot_types::{Fpr, KeyId, PackedPlaced, Scope};

fn bytes_fit(bytes: &[u8])
    ensures { IsBytes bytes.now }
{}

fn byte_fits(n: u8)
    ensures { n < 256 }
{}

fn word_fits(n: u32)
    ensures { n < 2 ^ 32 }
{}

fn id_fits(id: KeyId)
    ensures { id < 2 ^ 64 }
{
    let KeyId(_n) = id;
}

fn scope_fits(scope: Option<&Scope>)
    ensures { IsScopeOfBytes (option_copied scope.entry) }
{
    match scope {
        Some(scope) => bytes_fit(scope.as_text().as_bytes()),
        None => (),
    }
}

fn issuer_fpr_fits(named: &Option<Fpr>)
    ensures { IsFprOfBytes named.now }
{
    match named {
        Some(fpr) => bytes_fit(fpr.as_bytes()),
        None => (),
    }
}

pub fn cert_fits(placed: &PackedPlaced)
    ensures { FitsCert placed.now.cert }
{
    id_fits(placed.issuer());
    byte_fits(placed.class());
    word_fits(placed.made());
    word_fits(placed.expires());
    byte_fits(placed.depth());
    byte_fits(placed.amount());
    scope_fits(placed.scope());
    issuer_fpr_fits(&placed.issuer_fpr());
}

/// A user ID whose certifications fit.
pub fn user_fits(head: &UserHead<'_>)
    ensures { (user : User) → IsUserHead user head.now → All FitsCert user.certs → FitsUser user }
{
    word_fits(head.made);
    word_fits(head.expires);
    bytes_fit(head.text.as_bytes());
}

/// A key whose user IDs fit.
pub fn key_fits(head: &KeyHead<'_>)
    ensures { (key : Key) → IsKeyHead key head.now → All FitsUser key.users → FitsKey key }
{
    word_fits(head.bits);
    word_fits(head.algo);
    word_fits(head.made);
    word_fits(head.expires);
    bytes_fit(head.fpr.as_bytes());
}

/// A state whose keys fit.
pub fn state_fits(engine: &Engine)
    ensures { All (λ e. FitsKey e.1) (map.entries engine.now.keys) → FitsState engine.now }
{
    let options = engine.options();
    word_fits(engine.date());
    word_fits(options.marginals);
    word_fits(options.completes);
    byte_fits(options.depth);
}
