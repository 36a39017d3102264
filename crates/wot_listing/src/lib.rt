//! The reader of GnuPG's checked colon listings: it accepts exactly the written grammar, and names the first fault.
//!
//! A listing comes line by line. What is kept of the lines so far stands in `progress`, and `specs/` ties it to the whole list of lines.
#![tactic(auto)]

mod block_keys; // the keys of the blocks that have ended
mod blocks; // what a listing gives
mod cert; // `sig` and `rev`
mod digits; // bytes that hexadecimal digits spell
mod ended_users; // the user IDs of a block that a line has ended
mod error; // what stops the reader
mod key_block; // the block that is being read
mod listing; // the reader
mod placed_keys; // keys in any order
mod primary; // `pub`
mod rising_keys; // keys whose key IDs rise
mod so_far; // what is kept of the lines so far
mod user; // `uid` and `uat`
mod values; // the values of a record's fields

pub use blocks::Blocks;
pub use error::ListingError;
pub use listing::Listing;
