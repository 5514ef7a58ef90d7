//! The queue in memory: jobs and documents in lists, accounts, grants and reports in hash tables.
#![tactic(auto)]

mod accounts;
mod book;
mod expiry;
mod grants;
mod lists;
mod name;
mod scene;
mod seen;
mod send;
mod sheet;
mod shown;

pub use book::ListBook;
