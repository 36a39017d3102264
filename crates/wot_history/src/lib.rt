//! Earlier states of the store: the shown side is read again, and nothing is written.
#![tactic(auto)]

mod base; // the state of a base, its rows counted anew
mod error; // why an earlier state was not read
mod history; // the state after so many edits since the base
mod replay; // the first records of a journal

pub use error::HistoryError;
pub use history::state_at;
