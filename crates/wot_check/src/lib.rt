//! Stored rows, each checked against the others, and rows counted by several threads.
#![tactic(auto)]

mod all_rows; // the check of all rows
mod fault; // what is wrong with stored rows
mod given_row; // the row that the others give a key
mod keys; // the keys that are checked
mod laws; // what is true of stored rows
mod rows_anew; // all rows counted anew
mod shared; // what threads may hand on
mod stands; // whether a stored row is the one that the others give

pub use all_rows::check_all;
pub use fault::RowFault;
pub use laws::{one_first_fault, standing_rows_are_the_rows};
pub use rows_anew::rows_by;
pub use stands::row_stands;
