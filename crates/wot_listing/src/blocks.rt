//! What a listing gives.

use wot_types::Keys;

/// The keys of a listing's blocks, in rising order of key ID, and its signatures by whether they are kept. The numbers stand still at 2^64 - 1.
#[derive(Debug, Drop)]
pub struct Blocks {
    pub keys: Keys,
    pub kept: u64,
    pub passed: u64,
}
