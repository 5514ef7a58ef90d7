//! Whatever reaches a print queue from outside, in any order: connections of HTTP, lines of the device, account files, and sweeps that end
//! expired jobs.
//!
//! [`take_all`] takes a list of them over any book of the queue, each at its moment, and its contract has the promise of the whole: the bytes that are
//! answered and the queue are the machine's, what is answered by a fault changes nothing, each job moves along the allowed pairs of states alone, and in
//! every account the pages granted are those that are free, reserved and printed. What shuts a book is told: as a fault, or as a document
//! that broke off. Where a crash comes, at any moment, it leaves the queue that the
//! machine came to, or the one after one event more, which one of them asked for.
#![tactic(auto)]

mod arrival;
mod taking;

pub use arrival::{Arrival, Arrived, Outcome};
pub use taking::take_all;
