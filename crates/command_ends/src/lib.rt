//! How a command of the program ends: why it is refused, what is told of it, and its exit status.
#![tactic(auto)]

mod ending;
mod fault;

pub use ending::{DONE, end, tell_words};
pub use fault::Fault;
