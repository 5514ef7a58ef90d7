//! The words of the command line, and the command that they name.
#![tactic(auto)]

mod command_line;
mod definition;
mod limits;
mod outcome;
mod values;

pub use command_line::command;
pub use outcome::{Command, CommandFault, Expire, Import, Init, Operators, Serve, Statement};
