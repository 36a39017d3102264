//! The lines that are printed, each by what it shows: those of a listing, the refusals, what an edit would change, and the last line of a reply.
#![tactic(auto)]

mod answers; // the last line of an accepted command's reply
mod fields; // fields at the end of a line
mod names; // the words that stand for values
mod records; // the lines of a listing
mod refusals; // the line of a refused command
mod supposing; // what an edit would change, and on whose ownertrust a letter hangs

pub use answers::{OK_LINE, entries_line, import_line, keys_line, ok_line};
pub use fields::{push_count_field, push_field, push_key_id_field, push_number_field, push_scope};
pub use names::{letter_text, trust_text};
pub use records::{push_cert, push_fpr, push_pub, push_tru, push_user};
pub use refusals::refused;
pub use supposing::{changes, losses};
