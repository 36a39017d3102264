//! The lines and fields of texts: which lines say nothing, where the fields of a line stand, the numbers, dates and texts that they spell, and how they are printed.
#![tactic(auto)]

mod colons; // where the colons of a line stand
mod dates; // seconds since 1970, and civil dates
mod digits; // numbers as a field prints them
mod fields; // a line split at its colons
mod lines; // lines that say nothing
mod numbers; // decimal numbers
mod ownertrust; // a line of an ownertrust text as it is printed
mod printed; // a text while it is printed
mod quoting; // texts as a quoted field prints them
mod sink; // where a text goes while it is printed
mod unquoting; // the text that a quoted field spells

pub use dates::{date, date_or_0};
pub use digits::push_number;
pub use fields::{Fields, field};
pub use lines::{is_blank, is_comment};
pub use numbers::{long, number, number_or_0};
pub use ownertrust::push_ownertrust_line;
pub use printed::Printed;
pub use quoting::{push_quoted, quote};
pub use sink::Sink;
pub use unquoting::{QuoteError, decoder_is_the_quoting_relation, unquote};
