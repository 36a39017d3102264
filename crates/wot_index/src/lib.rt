//! An index: a set of pairs of a number and a key, asked by the number; and a draft of one, whose new pairs wait until many are added together.
#![tactic(auto)]

mod draft; // an index while pairs come
mod falling; // pairs on their way into an index
mod index; // the pairs

pub use draft::Draft;
pub use index::Index;
