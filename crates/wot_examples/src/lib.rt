//! Worked examples of the rules of validity and of samples: each clause evaluates definitions.
//!
//! A key is named by a number. Key 10 is ultimately trusted where it stands among the introducers.
#![tactic(auto)]

mod compaction;
mod expiry;
mod samples;
mod scopes;
mod selection;
mod trust_signatures;

pub use compaction::stores_move_to_the_next_epoch;
pub use expiry::{keys_end_at_their_expiry, next_check_is_at_the_next_expiry};
pub use samples::{numbers_are_drawn_by_splitmix64, samples_are_made_from_their_seed};
pub use scopes::{
    other_scopes_are_none, scopes_admit_their_domain, scopes_may_begin_and_end,
    scopes_may_have_branches, scopes_may_have_ranges,
};
pub use selection::{latest_certification_decides, low_levels_are_disregarded};
pub use trust_signatures::{
    depth_is_used_up, latest_delegation_counts, scopes_narrow_introducers,
    trust_signatures_make_introducers,
};
