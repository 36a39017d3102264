//! The sides of the store.

/// One of the two sides of the store.
#[derive(Clone, Copy, Debug, PartialEq, Eq)]
pub enum Side {
    Zero,
    One,
}
