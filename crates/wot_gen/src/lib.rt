//! Keys made from a number, for tests and measurements: the same keyring everywhere, without a listing to read.
#![tactic(auto)]

mod certs; // the certifications on a key
mod dates; // when keys are made and end
mod draws; // numbers drawn from a seed
mod names; // key IDs, fingerprints and texts
mod one_key; // a key
mod ownertrust; // the entry of a key
mod sample; // many keys and entries

pub use certs::cert_count;
pub use names::{fpr, key_id};
pub use one_key::{key, text_size};
pub use ownertrust::entry;
pub use sample::{entries, keys};
