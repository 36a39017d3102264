//! What is wrong with stored rows.

use wot_types::{KeyId, Row};

/// A key whose stored row, or want of one, isn't the one that the other rows give it.
#[derive(Debug, PartialEq, Eq, Drop)]
pub struct RowFault {
    pub key: KeyId,
    pub stored: Option<Row>,
    pub counted: Option<Row>,
}
