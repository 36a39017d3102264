//! The edits of the engine.

use wot_types::{Entries, KeyId, Keys, Options};

/// What an edit does, with whole entries and with the keys of a sample.
#[derive(Drop)]
pub enum PlainEdit {
    /// Adds keys, or replaces those of the same key IDs, and sets entries.
    Put(Keys, Entries),
    /// Takes a key away.
    Remove(KeyId),
    /// Sets the date, in seconds since 1970.
    SetDate(u32),
    /// Sets all options of the trust model.
    SetOptions(Options),
}
