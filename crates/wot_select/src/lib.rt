//! Selection: when a thing is expired, and which of an issuer's certifications on a user ID decides.
#![tactic(auto)]

mod deciding; // the one certification of an issuer that decides
mod expiry; // when a thing is expired

pub use deciding::usable;
pub use expiry::expired;
