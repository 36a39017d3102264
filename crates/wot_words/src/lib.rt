//! The words after the program's name: its one option, and the words of one command.
#![tactic(auto)]

mod error; // why the words ask for nothing
mod command_line; // the command line that `clap` reads
mod words; // what all the words ask for

pub use error::WordsError;
pub use words::{ProgramWords, program_words};
