//! User IDs of a block.

ghost use Rattle.std.specs.Prelude.{◌≡◌};
ghost use Rattle.wot_types.specs.Listing.{first_failing, user_at, user_checks};
ghost use Rattle.wot_listing.specs.Answer.{Answers};

use crate::error::LineError;
use crate::values::{dates_in, hash_in, is_marked_revoked, text_in};
use std::alloc::Global;
use wot_fields::Fields;
use wot_types::{List, ListingWhat, User, UserKind};

/// Reads a `uid` or `uat` record of a key that is revoked or not.
pub fn read_user(
    alloc: Global,
    kind: UserKind,
    of_revoked: bool,
    line: &Fields<'_>,
) -> Result<User, LineError>
    ensures { Answers result (first_failing (user_checks line.now)) (λ user. user ≡ user_at kind of_revoked line.now) }
{
    if line.has_fewer(10) {
        return Err(LineError::Failed(ListingWhat::ShortRecord));
    }
    let (made, expires) = dates_in(line)?;
    let text = text_in(alloc, line, 10)?;
    let hash = hash_in(alloc, line)?;
    Ok(User {
        kind,
        text,
        hash,
        made,
        expires,
        revoked: is_marked_revoked(line) && !of_revoked,
        certs: List::new(alloc),
    })
}
