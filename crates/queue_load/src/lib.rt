//! The tables of a queue, each read whole as typed rows, a row at a time.
#![tactic(auto)]

mod keyed;
pub mod laws;
mod load;
mod queue;
mod rows;
mod table;
mod typed;

pub use queue::load_queue;
