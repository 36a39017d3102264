//! What is counted of a state.

use crate::counts::Counts;
use wot_types::Rows;

/// The rows of a state, and the counts that belong to them.
#[derive(Drop)]
pub struct RowsAndCounts {
    pub rows: Rows,
    pub counts: Counts,
}
