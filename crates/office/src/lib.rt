//! What an office asks of a book: it hands in an account file, has the statement of an account printed, or ends the
//! jobs that have expired.
#![tactic(auto)]

mod account_file;
mod expiring;
mod fault;
mod printing;

pub use account_file::{import_bytes, read_account_file};
pub use expiring::expire_jobs;
pub use fault::OfficeFault;
pub use printing::print_statement;
