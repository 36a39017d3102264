//! The limits of what is kept.

ghost use Rattle.std.specs.Prelude.{◌≡◌, is_none};
ghost use Rattle.wot_types.specs.Limits.{trusts_passed};
ghost use Rattle.wot_image.specs.States.{is_within};

use crate::image::Image;
use wot_types::{MOST_TRUSTS, Trusts};

/// Whether the keyring and the ownertrust of an image pass no limit.
pub fn is_within(image: &Image) -> bool
    ensures { result ≡ is_within image.now }
{
    image.table.totals().limit_passed().is_none() && are_few(&image.trusts)
}

fn are_few(trusts: &Trusts) -> bool
    ensures { result ≡ is_none (trusts_passed trusts.now) }
{
    trusts.len() <= MOST_TRUSTS
}
