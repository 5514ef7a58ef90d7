//! What an office is told of an account.
use crate::job::JobList;
use crate::text::Text;

/// An account: in pages, what was granted to it, what of that is free, reserved and printed, and its owner's
/// jobs that have pages reserved or printed, by number. Free pages are below zero by pages printed past
/// what was reserved.
#[derive(Debug, Drop)]
pub struct AccountSheet {
    pub account: Text,
    pub granted: u64,
    pub free: i64,
    pub reserved: u64,
    pub printed: u64,
    pub jobs: JobList,
}
