//! Tests of whole runs, which cross all crates below.
#![tactic(auto)]

#[cfg(test)]
mod bounds; // runs whose input is bounded
#[cfg(test)]
mod compactions; // a sample that is compacted, stopped at each call of the disk
#[cfg(test)]
mod earlier; // queries of the states between the edits of a session
#[cfg(test)]
mod faults; // no call after one that failed
#[cfg(test)]
mod files; // runs over real files
#[cfg(test)]
mod gates; // runs over several workers
#[cfg(test)]
mod listing; // the whole keyring in memory, beside what is told
#[cfg(test)]
mod memory; // runs that may be short of memory
#[cfg(test)]
mod runs; // runs over a site in memory, and what a crash leaves of it
#[cfg(test)]
mod trusts; // two edits and a compaction, where a call fails
