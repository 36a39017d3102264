//! Telling texts to a site: a whole text, or one that is told while it is printed.
#![tactic(auto)]

mod buffer; // bytes that are taken and not told yet
mod tell; // a whole text is told
mod teller; // a text is told while it is printed

pub use buffer::Buffer;
pub use tell::tell_all;
pub use teller::Teller;
