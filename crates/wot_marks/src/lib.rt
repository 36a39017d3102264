//! User IDs told apart by order: each is looked for among others by a search.
#![tactic(auto)]

mod mark; // what tells a user ID apart
mod marks; // the marks of user IDs, in order

pub use mark::Mark;
pub use marks::{Marks, add_mark, is_among_marked};
