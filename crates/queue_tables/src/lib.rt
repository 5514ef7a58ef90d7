//! The tables in which a queue is kept: their schema, what each column holds, the change that a decision makes
//! of their rows, and the rows as they are read.
#![tactic(auto)]

pub mod account_pages;
mod account_rows;
mod change;
mod document_rows;
pub mod document_sizes;
pub mod fault;
mod grant_rows;
mod job_columns;
mod job_rows;
pub mod meta_rows;
mod operator_rows;
mod operators;
mod pages;
mod piece_rows;
mod put;
pub mod read;
mod report_rows;
mod run;
pub mod select;
mod transaction;

pub use operators::set_operators;
pub use transaction::make;

/// The names of the tables that a book of each version has.
pub const FIRST_TABLES: [&[u8]; 7] = [
    b"meta",
    b"jobs",
    b"documents",
    b"pieces",
    b"accounts",
    b"grants",
    b"reports",
];

/// The name of the table that the first version lacks.
pub const POLICY: &[u8] = b"policy";

/// The name of the table that the first two versions lack.
pub const OPERATORS: &[u8] = b"operators";

/// The names of the book's tables.
pub const TABLES: [&[u8]; 9] = [
    b"meta",
    b"jobs",
    b"documents",
    b"pieces",
    b"accounts",
    b"grants",
    b"reports",
    b"policy",
    b"operators",
];
