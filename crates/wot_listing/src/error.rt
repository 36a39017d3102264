//! What stops the reader.

ghost use Rattle.std.specs.Prelude.{◌≡◌};

use wot_fields::QuoteError;
use wot_types::{ListingFault, ListingWhat, Mem};

/// Why a listing is refused.
#[derive(Clone, Copy, Debug, PartialEq, Eq, Drop)]
pub enum ListingError {
    /// The listing's first fault.
    Fault(ListingFault),
    /// Out of memory.
    Memory,
}

/// Why a line is refused: a check that fails, or want of memory.
#[derive(Clone, Copy, Debug, PartialEq, Eq, Drop)]
pub enum LineError {
    Failed(ListingWhat),
    Memory,
}

impl From<Mem> for LineError {
    ghost use Rattle.wot_listing.specs.declared.error.LineError.TheVariants as line_error;

    ghost from_gives = { λ _ e. e ≡ line_error.Memory };

    fn from(_e: Mem) -> LineError {
        LineError::Memory
    }
}

impl From<QuoteError> for LineError {
    ghost use Rattle.wot_listing.specs.Answer.{quote_failed};

    ghost from_gives = { λ q e. e ≡ quote_failed q };

    fn from(e: QuoteError) -> LineError {
        match e {
            QuoteError::BadQuote => LineError::Failed(ListingWhat::BadQuote),
            QuoteError::Memory => LineError::Memory,
        }
    }
}
