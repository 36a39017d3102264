//! What the program prints of its engine: the keyring as a listing, the ownertrust export, the tally of letters, and explanations.
#![tactic(auto)]

mod counts; // how many user IDs have which letter
mod explanation; // why a user ID is as valid as it is
mod fits; // the ranges of what is printed
mod listing; // the keyring, or one key of it
mod ownertrust; // the ownertrust export
mod ownertrust_walk; // the ownertrust of fingerprints whose key IDs rise
mod workers; // the same counts by several workers

pub use counts::tally;
pub use explanation::why;
pub use listing::{Printout, list};
pub use ownertrust::export;
pub use workers::tally_by;
