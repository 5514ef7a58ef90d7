//! What the commands of the program do, on a store at a path.
//!
//! [`run`] reads the program's words and does what they ask; a refusal is a [`Fault`], told in one line. Each command is a function of its own:
//! a new store (`new_store`) and one that is there (`store`), an account file, a statement and the jobs that have expired (`office_commands`), and
//! connections (`serving`); `found` tells what is at a path, and `work` does commands on the store that is there.
#![tactic(auto)]

mod found;
mod new_store;
mod office_commands;
mod program;
mod serving;
mod store;
mod work;

pub use command_ends::{Fault, end};
pub use program::run;
