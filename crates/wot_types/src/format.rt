//! The formats of base images.

/// How a base image is spelled. One of the third format by the rules of now is written; all are read.
#[derive(Clone, Copy, Debug, PartialEq, Eq)]
pub enum Format {
    /// Certifications name no fingerprints, and rows no delegators.
    First,
    /// Rows name no delegators.
    Second,
    /// With the number of the rules of validity by which the rows were counted.
    Third(u8),
}

/// The number of the rules of validity by which rows are counted now. Those of earlier versions have lesser numbers, from 1 on.
pub const RULES: u8 = 2;
