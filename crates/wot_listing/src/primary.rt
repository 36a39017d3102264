//! The `pub` record of a block.

ghost use Rattle.std.specs.Prelude.{◌≡◌};
ghost use Rattle.wot_types.specs.Listing.{first_failing, pub_checks};
ghost use Rattle.wot_listing.specs.Answer.{Answers};
ghost use Rattle.wot_listing.specs.Machine.{primary_of};

use crate::error::LineError;
use crate::values::{capabilities_in, dates_in, is_marked_revoked, key_id_in, number_in};
use std::alloc::Global;
use wot_fields::Fields;
use wot_types::{Caps, KeyId, ListingWhat};

/// The values of a `pub` record, as they are kept until its block ends.
#[derive(Debug, Drop)]
pub struct Primary {
    pub id: KeyId,
    pub bits: u32,
    pub algo: u32,
    pub made: u32,
    pub expires: u32,
    pub revoked: bool,
    pub caps: Caps,
}

/// Reads a `pub` record.
pub fn read_primary(alloc: Global, line: &Fields<'_>) -> Result<Primary, LineError>
    ensures { Answers result (first_failing (pub_checks line.now)) (λ primary. primary ≡ primary_of line.now) }
{
    if line.has_fewer(6) {
        return Err(LineError::Failed(ListingWhat::ShortRecord));
    }
    let bits = number_in(line, 3)?;
    let algo = number_in(line, 4)?;
    let id = key_id_in(line)?;
    let (made, expires) = dates_in(line)?;
    let revoked = is_marked_revoked(line);
    let caps = capabilities_in(alloc, line)?;
    Ok(Primary {
        id,
        bits,
        algo,
        made,
        expires,
        revoked,
        caps,
    })
}
