//! The rows of a store's tables as typed lists, and the decision whether they are those of a sound
//! queue. It knows nothing of SQL: it is given all rows of each table, in the order of its key.
#![tactic(auto)]

mod accounts;
mod amounts;
mod balances;
pub mod codes;
mod documents;
mod grants;
pub mod jobs;
pub mod laws;
pub mod meta;
pub mod order;
mod owners;
pub mod pieces;
mod reports;
pub mod rows;
pub mod sound;
mod totals;
