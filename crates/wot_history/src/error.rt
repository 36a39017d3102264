//! Why an earlier state was not read.

use thiserror::Error;

/// Why an earlier state was not read: beside want of memory and a fault of the disk, the first fault of the side.
#[derive(Clone, Copy, Debug, PartialEq, Eq, Drop, Error)]
pub enum HistoryError {
    #[error("disk fault")]
    DiskFault,
    /// What begins at that place passes the side.
    #[error("what begins at {0} passes the side")]
    Short(u64),
    /// That page's seal is wrong.
    #[error("the seal of page {0} differs")]
    Seal(u64),
    /// The base isn't one image.
    #[error("the base is not one image")]
    Spelling,
    /// That record, from 1, isn't there: the journal ends before it.
    #[error("record {0} is not there")]
    Lost(u64),
    /// That record spells no edit.
    #[error("record {0} spells no edit")]
    BadPayload(u64),
    /// That record's edit is refused.
    #[error("the edit of record {0} is refused")]
    BadEdit(u64),
    #[error("out of memory")]
    Memory,
}
