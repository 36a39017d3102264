//! The outside of the program as one object: its input, its output and the two sides of its store.
//!
//! `Site` is what the layers above are generic in. `MemorySite` is the one for tests: it tells all that it
//! sees and does, its calls fail where they are planned to, and it gives what a crash may leave of its sides.
#![tactic(auto)]

mod asked; // when input was asked for
mod bytes; // the bytes of one call
mod failed; // calls that failed
mod memory; // the outside in memory
mod gate; // gates, and the most bytes of a side
mod range; // ranges of bytes
mod reading; // reading bytes of a side
mod side; // the sides of the store
mod site; // the calls, and what each tells of itself

pub use asked::Asked;
pub use failed::{DiskFault, Failed};
pub use gate::{MOST, OPEN};
pub use memory::{CallKind, MemorySite, Pick};
pub use range::Range;
pub use reading::{RangeError, read_range};
pub use side::Side;
pub use site::Site;
