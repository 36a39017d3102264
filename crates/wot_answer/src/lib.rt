//! What each line of a session is answered with: its reply, the engine after it, and what is done to the store before the
//! reply is told. No site is called here.
#![tactic(auto)]

mod answer; // the answers to lines, to blocks at the input's end and to commands without one
mod begun; // what words ask for, and the block that follows them
mod block; // a command's block, read as it comes
mod division; // how the lines so far are divided into commands
mod edit; // an edit that is refused or made
mod edit_reply; // what an accepted edit is answered with
mod query; // what a query is answered with
mod reply; // a reply with the engine that it leaves
mod supposing; // what an edit would change, and on whose ownertrust a letter hangs
mod words; // the words of a line

pub use answer::{Answered, LineAnswered, answer_end, answer_line, answer_single};
pub use begun::{Begun, Single, read_command};
pub use block::Block;
pub use division::Division;
pub use query::answer_in;
pub use reply::{Answer, Effect, Reply};
