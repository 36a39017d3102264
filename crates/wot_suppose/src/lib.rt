//! What an edit would change, and on whose ownertrust a letter hangs: the engine is edited, asked, and edited back.
#![tactic(auto)]

mod changes; // the letters that differ between two states
mod letters; // the letters of all user IDs
mod losses; // the entries on which a letter hangs
mod near; // the keys from which one comes to a key over certifications
mod supposing; // what an edit would change
mod trial; // edits that are taken back
mod tried; // the engine without one entry after the other

pub use losses::critical;
pub use supposing::suppose;
