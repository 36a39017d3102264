//! The bytes of the store's values: each edit has one spelling, the payload of its record. The image stands on the same parts.
#![tactic(auto)]

mod checks; // what is tested of the values that are read
mod fields; // a key and a user ID up to the lists that they end with
mod numbers; // the bytes of numbers
mod payload; // the payloads of edits
mod reader; // reading parts from the front
mod sizes; // how many bytes a payload has
mod no_value; // why a value could not be read
mod values; // the values that stand in lists
mod writer; // writing parts at the end

pub use fields::{KeyFields, UserFields};
pub use no_value::NoValue;
pub use payload::{decode, encode, encode_with_length, one_payload};
pub use reader::{Part, Reader};
pub use sizes::payload_length;
pub use writer::Writer;
