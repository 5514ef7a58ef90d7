//! The book that is kept in the tables of a store.
#![tactic(auto)]

mod adopt;
mod book;
mod causes;
mod create;
pub mod laws;
mod migrate;
mod open;
mod operators;
mod queue_book;
mod run;
mod version;

pub use book::TableBook;
