//! Work that is cut into pieces, one for each worker.
#![tactic(auto)]

mod gate; // what the workers of a parallel phase call
mod pieces; // how work is cut into pieces
mod workers; // who works

pub use gate::{Gate, NoGate};
pub use pieces::{first_some, piece_number, piece_size};
pub use workers::Workers;
