//! A session of `wot`: the store is opened, the input is read, its lines are answered, and the replies are told.
//!
//! `run` is the whole program over a site. What it promises stands in `specs/Run.antt`.
#![tactic(auto)]

mod earlier; // the reply to a query of an earlier state
mod lines; // where a line ends
mod open_line; // the line that no newline has ended yet
mod opened; // a session over an opened store, or one command
mod perform; // what an answer does to the store
mod program; // the whole program, from its words on
mod ready; // what is told, made ready before anything is done
mod running; // a session from its first byte to its last
mod session; // what was read and not answered yet, and what the answered lines led to
mod status; // how a run ended
mod stop; // why it stopped before its input was answered
mod tell; // what was made ready is told

pub use program::{run, run_within};
pub use status::Status;
