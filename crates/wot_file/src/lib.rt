//! The real outside of the program: its standard input and output, and the two files of its store.
#![tactic(auto)]

mod file; // the site
mod reason; // why a call failed
mod sides; // the two files
mod streams; // one call of a reader or a writer, tried again where a signal cut it short

pub use file::FileSite;
pub use reason::{Place, Reason};
