//! The statement of an account as a text to print.
#![tactic(auto)]

mod page;

pub use page::statement;
