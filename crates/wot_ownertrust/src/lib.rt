//! Ownertrust texts, as GnuPG exports and imports them: a line read, a line written, a whole text read line by line.
#![tactic(auto)]

mod laws; // what is exported is read back
mod line; // a line of an ownertrust text
mod text; // the entries of a whole text, or its first fault

pub use laws::exported_reads_back;
pub use line::{read_line, write_line};
pub use text::{OwnertrustText, TextError};
