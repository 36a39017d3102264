//! When input was asked for.

/// A call of `take`: how many bytes were taken and told before it.
#[derive(Clone, Copy, Debug, PartialEq, Eq)]
pub struct Asked {
    pub taken: usize,
    pub told: usize,
}
