//! Tests of public calls that the program doesn't make: that each finds the memory it needs, and what it answers then.
#![tactic(auto)]

#[cfg(test)]
mod engines; // engines to begin with
#[cfg(test)]
mod journal; // records that are built
#[cfg(test)]
mod live; // the engine's own edits
#[cfg(test)]
mod spelling; // payloads
#[cfg(test)]
mod texts; // quoted texts and lines of ownertrust
