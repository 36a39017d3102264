//! Ranges of bytes.

/// So many bytes from a place on.
#[derive(Clone, Copy, Debug, PartialEq, Eq)]
pub struct Range {
    pub at: u64,
    pub len: usize,
}
