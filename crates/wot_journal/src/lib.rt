//! The records of a journal, each behind a gate of its own.
#![tactic(auto)]

mod record; // a record that is built in memory, for one place
mod committing; // putting it onto the disk, so that a crash leaves it whole or not at all
mod reading; // reading the record at a place

pub use committing::{commit, put};
pub use reading::{ReplayError, Step, next};
pub use record::{BuildError, Built, build, build_in_place};
