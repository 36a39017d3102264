//! What an edit would change.

use crate::fpr::Fpr;
use crate::key_id::KeyId;
use crate::letter::Letter;
use crate::list::List;

/// A user ID, numbered from 0 in its key, whose letter would be another.
#[derive(Clone, Copy, Debug, PartialEq, Eq)]
pub struct Change {
    pub key: KeyId,
    pub user: u32,
    pub old: Letter,
    pub new: Letter,
}

pub type Changes = List<Change>;

/// An entry without whose ownertrust the letter of a user ID would be further back.
#[derive(Debug, Drop)]
pub struct Loss {
    pub fpr: Fpr,
    pub letter: Letter,
}

pub type Losses = List<Loss>;
